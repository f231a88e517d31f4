// The form of a timing sheet (document 01, 'The timing sheet'), and the check of its smallest parts: marks, lengths, names, values.
#![tactic(auto)]

ghost use Rattle.std.specs.Prelude.{◌≡◌, ◌+◌, ◌≤◌, length, get_or};
ghost use Rattle.wire.specs.Wire.{part};
ghost use Rattle.names.specs.Order.{cmp};
ghost use Rattle.sheetparts.specs.Form.{reach, shape_ok, one_end, edge_top, edge_top2, second_least, second_most, used, value_ok, room_step, mark_step};
ghost use Rattle.sheetparts.specs.Form.{kind_step, edge_step, len_step, name_step, value_step, values_step, first_len, second_len, path_len, type_len, format_step};

// What a fault is about, by document 01's numbers: the definition `check_of` answers them.
const FORM: u8 = 10; // a mark, a length, a field that is not whole, a byte too many

const SHAPE: u8 = 20; // a name, a kind, an edge

const VALUE: u8 = 21;

const FORMAT: u8 = 22;

// What a text of a sheet is. Numbers, not an enum, since `name_step` answers for every u8 and may not ask for less.
pub const PATH: u8 = 0;

pub const END: u8 = 1;

pub const TYPE: u8 = 2;

// The first fault: the number of its refusal, and its place.
#[derive(Clone, Copy, Debug, PartialEq, Eq)]
pub struct Fault {
    pub number: u8,
    pub place: usize,
}

// A sheet's counts, and the place of its first arc.
#[derive(Clone, Copy, Debug, PartialEq, Eq)]
pub struct Outline {
    pub instances: usize,
    pub arcs: usize,
    pub first_arc: usize,
}

// The byte at a place, or 0 past the end.
pub fn peek(sheet: &[u8], place: usize) -> u8
    ensures { result ≡ get_or sheet.now place 0 }
{
    if place < sheet.len() { sheet[place] } else { 0 }
}

// Whether a text has the shape of what it is.
#[tactic(auto, unfolding(crate::specs::Form::shape_ok))]
fn shape_ok(what: u8, text: &[u8]) -> bool
    ensures { result ≡ shape_ok what text.now }
{
    if what == TYPE {
        return nameshape::is_text(text);
    }
    text.is_empty()
        || if what == END {
            nameshape::is_port(text, false)
        } else {
            nameshape::is_path(text, false)
        }
}

// Whether a kind has no second end.
#[tactic(auto, unfolding(crate::specs::Form::one_end))]
pub fn one_end(kind: u8) -> bool
    ensures { result ≡ one_end kind }
{
    kinds::is_kind(kind) && !kinds::has_second(kind)
}

#[tactic(auto, unfolding(crate::specs::Form::edge_top))]
pub fn edge_top(kind: u8) -> u8
    ensures { result ≡ edge_top kind }
{
    if kinds::has_edge(kind) { 8 } else { 0 }
}

#[tactic(auto, unfolding(crate::specs::Form::edge_top2))]
pub fn edge_top2(kind: u8) -> u8
    ensures { result ≡ edge_top2 kind }
{
    if kinds::has_edge2(kind) { 8 } else { 0 }
}

#[tactic(auto, unfolding(crate::specs::Form::second_least))]
pub fn second_least(kind: u8) -> usize
    ensures { result ≡ second_least kind }
{
    if one_end(kind) { 0 } else { 1 }
}

#[tactic(auto, unfolding(crate::specs::Form::second_most))]
pub fn second_most(kind: u8) -> usize
    ensures { result ≡ second_most kind }
{
    if one_end(kind) { 0 } else { 2049 }
}

// How many of the 18 values a kind uses.
#[tactic(auto, unfolding(crate::specs::Form::used))]
pub fn used_of(kind: u8) -> usize
    ensures { (result ≡ used kind) × (result ≤ 18) }
{
    3 * kinds::rows_of(kind)
}

// Whether the bits may stand in this slot of an arc of this kind.
#[tactic(auto, unfolding(crate::specs::Form::value_ok))]
pub fn value_ok(kind: u8, slot: usize, bits: u64) -> bool
    ensures { result ≡ value_ok kind slot bits }
{
    if bits == 0x8000_0000_0000_0000 {
        return true;
    }
    if used_of(kind) <= slot {
        return false;
    }
    if bits <= 1000000000000000 {
        return true;
    }
    if 18445744073709551616 <= bits {
        return kinds::is_signed(kind);
    }
    false
}

// So many bytes from a place on. Each step answers the place where it goes on, or the first fault.
#[tactic(auto, unfolding(crate::specs::Form::room_step))]
pub fn room_step(sheet: &[u8], count: usize, place: usize) -> Result<usize, Fault>
    requires { place ≤ length sheet.now }
    ensures { (result ≡ room_step sheet.now count place) × (reach result ≤ length sheet.now) }
{
    if sheet.len() - place < count {
        return Err(Fault {
            number: FORM,
            place,
        });
    }
    Ok(place + count)
}

#[tactic(auto, using(crate::proofs::Steps::passed_on), unfolding(crate::specs::Form::room_step, crate::specs::Form::mark_step))]
pub fn mark_step(sheet: &[u8], x: u8, y: u8, place: usize) -> Result<usize, Fault>
    requires { place ≤ length sheet.now }
    ensures { (result ≡ mark_step sheet.now x y place) × (reach result ≤ length sheet.now) }
{
    let next = room_step(sheet, 2, place)?;
    if sheet[place] != x || sheet[place + 1] != y {
        return Err(Fault {
            number: FORM,
            place,
        });
    }
    Ok(next)
}

#[tactic(auto, using(crate::proofs::Steps::passed_on), unfolding(crate::specs::Form::room_step, crate::specs::Form::kind_step))]
pub fn kind_step(sheet: &[u8], place: usize) -> Result<usize, Fault>
    requires { place ≤ length sheet.now }
    ensures { (result ≡ kind_step sheet.now place) × (reach result ≤ length sheet.now) }
{
    let next = room_step(sheet, 1, place)?;
    if !kinds::is_kind(sheet[place]) {
        return Err(Fault {
            number: SHAPE,
            place,
        });
    }
    Ok(next)
}

#[tactic(auto, using(crate::proofs::Steps::passed_on), unfolding(crate::specs::Form::room_step, crate::specs::Form::edge_step))]
pub fn edge_step(sheet: &[u8], top: u8, place: usize) -> Result<usize, Fault>
    requires { place ≤ length sheet.now }
    ensures { (result ≡ edge_step sheet.now top place) × (reach result ≤ length sheet.now) }
{
    let next = room_step(sheet, 1, place)?;
    if sheet[place] > top {
        return Err(Fault {
            number: SHAPE,
            place,
        });
    }
    Ok(next)
}

// A length within bounds, and as many bytes.
#[tactic(auto, using(crate::proofs::Steps::passed_on), unfolding(crate::specs::Form::room_step, crate::specs::Form::len_step))]
pub fn len_step(sheet: &[u8], least: usize, most: usize, place: usize) -> Result<usize, Fault>
    requires { place ≤ length sheet.now }
    ensures { (result ≡ len_step sheet.now least most place) × (reach result ≤ length sheet.now) }
{
    let start = room_step(sheet, 2, place)?;
    let n = wire::u16_at(sheet, place);
    if n < least || n > most {
        return Err(Fault {
            number: FORM,
            place,
        });
    }
    room_step(sheet, n, start)
}

#[tactic(auto, using(crate::proofs::Steps::passed_on), unfolding(crate::specs::Form::room_step, crate::specs::Form::value_step))]
fn value_step(sheet: &[u8], kind: u8, slot: usize, place: usize) -> Result<usize, Fault>
    requires { place ≤ length sheet.now }
    ensures { (result ≡ value_step sheet.now kind slot place) × (reach result ≤ length sheet.now) }
{
    let next = room_step(sheet, 8, place)?;
    if !value_ok(kind, slot, wire::u64_at(sheet, place)) {
        return Err(Fault {
            number: VALUE,
            place,
        });
    }
    Ok(next)
}

#[tactic(auto, using(crate::proofs::Steps::passed_on), unfolding(crate::specs::Form::room_step, crate::specs::Form::format_step))]
pub fn format_step(sheet: &[u8], place: usize) -> Result<usize, Fault>
    requires { place ≤ length sheet.now }
    ensures { (result ≡ format_step sheet.now place) × (reach result ≤ length sheet.now) }
{
    let next = room_step(sheet, 2, place)?;
    if wire::u16_at(sheet, place) != 1 {
        return Err(Fault {
            number: FORMAT,
            place,
        });
    }
    Ok(next)
}

// A length, and a text of the right shape.
#[tactic(auto, using(crate::proofs::Steps::passed_on), unfolding(crate::specs::Form::len_step, crate::specs::Form::name_step))]
pub fn name_step(
    sheet: &[u8],
    what: u8,
    least: usize,
    most: usize,
    place: usize,
) -> Result<usize, Fault>
    requires { place ≤ length sheet.now }
    ensures { (result ≡ name_step sheet.now what least most place) × (reach result ≤ length sheet.now) }
{
    let next = len_step(sheet, least, most, place)?;
    let start = place + 2;
    if !shape_ok(what, &sheet[start..next]) {
        return Err(Fault {
            number: SHAPE,
            place: start,
        });
    }
    Ok(next)
}

pub fn values_step(sheet: &[u8], kind: u8, count: usize, place: usize) -> Result<usize, Fault>
    requires { (place ≤ length sheet.now) × (count ≤ 36) }
    ensures { (result ≡ values_step sheet.now kind count 0 place) × (reach result ≤ length sheet.now) }
{
    let mut here = place;
    for slot in 0..count {
        here = value_step(sheet, kind, slot, here)?;
    }
    Ok(here)
}

// The order of m bytes from p on and n bytes from q on.
pub fn cmp_parts(sheet: &[u8], p: usize, m: usize, q: usize, n: usize) -> u8
    requires { (p + m ≤ length sheet.now) × (q + n ≤ length sheet.now) }
    ensures { result ≡ cmp (part sheet.now p m) (part sheet.now q n) }
{
    let e = p + m;
    let f = q + n;
    names::cmp_texts(&sheet[p..e], &sheet[q..f])
}

// The length of the first end of the arc at a place.
#[tactic(auto, unfolding(crate::specs::Form::first_len))]
pub fn first_len(sheet: &[u8], place: usize) -> usize
    requires { place + 6 ≤ length sheet.now }
    ensures { result ≡ first_len sheet.now place }
{
    wire::u16_at(sheet, place + 4)
}

// The length of its second end.
#[tactic(auto, unfolding(crate::specs::Form::first_len, crate::specs::Form::second_len))]
pub fn second_len(sheet: &[u8], place: usize) -> usize
    requires { place + 9 + first_len sheet.now place ≤ length sheet.now }
    ensures { result ≡ second_len sheet.now place }
{
    let m = wire::u16_at(sheet, place + 4);
    wire::u16_at(sheet, place + 7 + m)
}

// The length of the path of the instance at a place.
#[tactic(auto, unfolding(crate::specs::Form::path_len))]
pub fn path_len(sheet: &[u8], place: usize) -> usize
    requires { place + 4 ≤ length sheet.now }
    ensures { result ≡ path_len sheet.now place }
{
    wire::u16_at(sheet, place + 2)
}

// The length of its type.
#[tactic(auto, unfolding(crate::specs::Form::path_len, crate::specs::Form::type_len))]
pub fn type_len(sheet: &[u8], place: usize) -> usize
    requires { place + 6 + path_len sheet.now place ≤ length sheet.now }
    ensures { result ≡ type_len sheet.now place }
{
    let n = path_len(sheet, place);
    wire::u16_at(sheet, place + 4 + n)
}
