// An index of a sheet's instances by their type, made once: from a type to the instances in its bucket, one after the other.
#![tactic(auto)]

ghost use Rattle.std.specs.Prelude.{◌≡◌, ℕ, ◌+◌, ◌*◌, ◌≤◌, ◌<◌, length, get_or};
ghost use Rattle.sheet.specs.Find.{InsGood};
ghost use Rattle.bytype.specs.Chains.{Noted, head_place, Chained};
ghost use Rattle.bytype.specs.ByType.{bucket_of, type_bucket, spot_of, link_place, spot_place, Indexed, IndexReady};

use sheetrecords::Instance;

// How many buckets there are. Their heads stand first in the table.
const BUCKETS: usize = 4096;

// Where the instances start.
const INSTANCES: usize = 12;

// For how many instances the table has room.
const MOST: usize = 65536;

// The bucket of a text.
pub fn bucket_of(text: &[u8]) -> usize
    ensures { (result ≡ bucket_of text.now) × (result < 4096) }
{
    let mut bucket = 0;
    for byte in text {
        bucket = (bucket * 31 + usize::from(*byte)) % BUCKETS;
    }
    bucket
}

// The number of things at every head: there is none in any bucket yet.
pub fn clear_heads(count: usize, index: &mut [u32; 135168])
    requires { (count ≤ 131071) × (length index.old ≡ 135168) }
    ensures { (length index.new ≡ 135168) × Noted head_place (λ h. count) 4096 index.new }
{
    index[..BUCKETS].fill(count as u32);
}

// The place of every instance.
fn note_spots(sheet: &[u8], count: usize, index: &mut [u32; 135168])
    requires { (InsGood sheet.now count 12) × (length sheet.now ≤ 16777216) × (count ≤ 65536) × (length index.old ≡ 135168) }
    ensures { (length index.new ≡ 135168) × (Noted spot_place (spot_of sheet.now) count index.new)
        × ((h : ℕ) → h < 4096 → get_or index.new h 0 ≡ get_or index.old h 0) }
{
    let mut here = INSTANCES;
    for k in 0..count {
        index[4097 + 2 * k] = here as u32;
        here = Instance { sheet, place: here }.next();
    }
}

// From the last instance to the first: the head of its bucket comes next behind it, and it is the head.
fn chain(sheet: &[u8], count: usize, index: &mut [u32; 135168])
    requires { (InsGood sheet.now count 12) × (count ≤ 65536) × (length index.old ≡ 135168)
        × (Chained link_place (type_bucket sheet.now) count count index.old) × Noted spot_place (spot_of sheet.now) count index.old }
    ensures { Indexed sheet.now count index.new }
{
    for k in (0..count).rev() {
        let here = index[4097 + 2 * k] as usize;
        let bucket = bucket_of(Instance { sheet, place: here }.type_name());
        index[4096 + 2 * k] = index[bucket];
        index[bucket] = k as u32;
    }
}

// The index of a sheet's instances, where the table has room for them.
pub fn index_types(sheet: &[u8], count: usize, index: &mut [u32; 135168])
    requires { (InsGood sheet.now count 12) × (length sheet.now ≤ 16777216) × (length index.old ≡ 135168) }
    ensures { IndexReady sheet.now count index.new }
{
    if MOST < count {
        return;
    }
    clear_heads(count, index);
    note_spots(sheet, count, index);
    chain(sheet, count, index);
}
