// An index of a sheet's arcs by their second end without its last component, made once where a text has a DEVICE.
#![tactic(auto)]

ghost use Rattle.std.specs.Prelude.{◌≡◌, true, false, ℕ, ◌+◌, ◌≤◌, ◌<◌, length, get_or};
ghost use Rattle.sheetlaws.specs.Sheet.{place};
ghost use Rattle.sheet.specs.Find.{ArcsGood};
ghost use Rattle.bytype.specs.Chains.{Noted, Chained};
ghost use Rattle.byend.specs.Ends.{below_bucket, end_bucket, end_place, EndsIndexed, EndsReady};
ghost use Rattle.byend.specs.Ports.{is_plain, plain_from, open_end};

use sheetrecords::Arc;

// For how many arcs the table has room: more than a sheet has.
const MOST: usize = 131071;

// Where it stands that the table is an index: `index_ends` promises it (EndsReady) of the table alone.
const READY: usize = 135167;

// The bucket of a name without its last component.
pub fn below_bucket(name: &[u8]) -> usize
    ensures { (result ≡ below_bucket name.now) × (result < 4096) }
{
    let start = names::last_component(name);
    if start == 0 {
        return 0;
    }
    let end = start - 1;
    bytype::bucket_of(&name[..end])
}

#[tactic(auto, unfolding(crate::specs::Ports::is_plain))]
fn is_plain(byte: u8) -> bool
    ensures { result ≡ is_plain byte }
{
    byte != b'.' && byte != b'/' && byte != b'\\'
}

// Whether a written port has no divider and no backslash.
pub fn plain_port(port: &[u8]) -> bool
    ensures { result ≡ plain_from port.now }
{
    port.iter().all(|byte| is_plain(*byte))
}

// Whether a path's last byte is no backslash.
pub fn open_end(path: &[u8]) -> bool
    ensures { result ≡ open_end path.now }
{
    match path.last() {
        Some(byte) => *byte != b'\\',
        None => true,
    }
}

// The place of every arc, for now where the number of the next one in its bucket is to stand.
fn note_places(sheet: &[u8], count: usize, first: usize, ends: &mut [u32; 135168])
    requires { (ArcsGood sheet.now count first) × (length sheet.now ≤ 16777216) × (count ≤ 131071) × (length ends.old ≡ 135168) }
    ensures { (length ends.new ≡ 135168) × (Noted end_place (λ k. place sheet.now k first) count ends.new)
        × ((h : ℕ) → h < 4096 → get_or ends.new h 0 ≡ get_or ends.old h 0) }
{
    let mut here = first;
    for k in 0..count {
        ends[4096 + k] = here as u32;
        here = Arc { sheet, place: here }.next();
    }
}

// From the last arc to the first: the head of its bucket comes next behind it, and it is the head.
fn chain(sheet: &[u8], count: usize, first: usize, ends: &mut [u32; 135168])
    requires { (ArcsGood sheet.now count first) × (count ≤ 131071) × (length ends.old ≡ 135168)
        × (Chained end_place (end_bucket sheet.now first) count count ends.old) × Noted end_place (λ k. place sheet.now k first) count ends.old }
    ensures { (length ends.new ≡ 135168) × EndsIndexed sheet.now count first ends.new }
{
    for k in (0..count).rev() {
        let here = ends[4096 + k] as usize;
        let bucket = below_bucket(Arc { sheet, place: here }.second_end());
        ends[4096 + k] = ends[bucket];
        ends[bucket] = k as u32;
    }
}

// The index of a sheet's arcs, where it is wanted and the table has room for them.
pub fn index_ends(sheet: &[u8], count: usize, first: usize, wanted: bool, ends: &mut [u32; 135168])
    requires { (ArcsGood sheet.now count first) × (length sheet.now ≤ 16777216) × (length ends.old ≡ 135168) }
    ensures { EndsReady sheet.now count first ends.new }
{
    ends[READY] = 0;
    if MOST < count {
        return;
    }
    if !wanted {
        return;
    }
    bytype::clear_heads(count, ends);
    note_places(sheet, count, first, ends);
    chain(sheet, count, first, ends);
    ends[READY] = 1;
}
