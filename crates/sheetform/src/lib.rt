// The check of a timing sheet, record by record (document 01, 'The timing sheet').
#![tactic(auto)]

ghost use Rattle.std.specs.Prelude.{◌≡◌, ◌+◌, ◌≤◌, length};
ghost use Rattle.names.specs.Order.{cmp};
ghost use Rattle.sheetparts.specs.Form.{reach, values_at, cmp_key, key_at, key_step, order_step, ar_rest, ar_fields, ar_step, arcs_step, path_len};
ghost use Rattle.sheetparts.specs.Form.{path_at, path_step, in_order_step, in_fields, in_step, ins_step, head_step, end_step, front_step, back_step, check_of};

use sheetparts::{END, Fault, Outline, PATH, TYPE};

// What a fault is about, by document 01's numbers: the definition `check_of` answers them.
const FORM: u8 = 10; // a mark, a length, a field that is not whole, a byte too many

const ORDER: u8 = 19;

// The order of the keys of the arcs at p and q.
#[tactic(auto, unfolding(sheetparts::specs::Form::cmp_key, sheetparts::specs::Form::key_at))]
fn key_cmp(sheet: &[u8], p: usize, q: usize) -> u8
    requires { (values_at sheet.now p ≤ length sheet.now) × (values_at sheet.now q ≤ length sheet.now) }
    ensures { result ≡ cmp_key (key_at sheet.now p) (key_at sheet.now q) }
{
    let by_kind = names::cmp_num(sheet[p + 2], sheet[q + 2]);
    if by_kind != 1 {
        return by_kind;
    }
    let m = sheetparts::first_len(sheet, p);
    let n = sheetparts::first_len(sheet, q);
    let by_first = sheetparts::cmp_parts(sheet, p + 6, m, q + 6, n);
    if by_first != 1 {
        return by_first;
    }
    let by_edge = names::cmp_num(sheet[p + 3], sheet[q + 3]);
    if by_edge != 1 {
        return by_edge;
    }
    let m2 = sheetparts::second_len(sheet, p);
    let n2 = sheetparts::second_len(sheet, q);
    let by_second = sheetparts::cmp_parts(sheet, p + 9 + m, m2, q + 9 + n, n2);
    if by_second != 1 {
        return by_second;
    }
    names::cmp_num(sheet[p + 6 + m], sheet[q + 6 + n])
}

// Whether the key of the arc at a place is there whole.
#[tactic(auto, using(sheetparts::proofs::Steps::passed_on), unfolding(sheetparts::specs::Form::key_step))]
fn key_step(sheet: &[u8], place: usize) -> Result<usize, Fault>
    requires { place ≤ length sheet.now }
    ensures { (result ≡ key_step sheet.now place) × (reach result ≤ length sheet.now) }
{
    let kind_place = sheetparts::mark_step(sheet, b'A', b'R', place)?;
    let first = sheetparts::room_step(sheet, 2, kind_place)?;
    let kind = sheetparts::peek(sheet, kind_place);
    let edge2 = sheetparts::len_step(sheet, 1, 2049, first)?;
    let second = sheetparts::room_step(sheet, 1, edge2)?;
    let least = sheetparts::second_least(kind);
    let most = sheetparts::second_most(kind);
    sheetparts::len_step(sheet, least, most, second)
}

// Whether the arc at a place is above the one at prev. A prev of 0 stands for none, as in the definition `order_step`.
#[tactic(auto, unfolding(sheetparts::specs::Form::order_step))]
fn order_step(sheet: &[u8], prev: usize, place: usize) -> Result<usize, Fault>
    requires { (place ≤ length sheet.now) × ((prev ≡ 0 → ⊥) → values_at sheet.now prev ≤ length sheet.now) }
    ensures { (result ≡ order_step sheet.now prev place) × (reach result ≤ length sheet.now) }
{
    if prev == 0 || key_step(sheet, place).is_err() || key_cmp(sheet, prev, place) == 0 {
        return Ok(place);
    }
    Err(Fault {
        number: ORDER,
        place,
    })
}

// What follows an arc's kind.
#[tactic(auto, using(sheetparts::proofs::Steps::passed_on), unfolding(sheetparts::specs::Form::ar_rest))]
fn ar_rest(sheet: &[u8], kind: u8, place: usize) -> Result<usize, Fault>
    requires { place ≤ length sheet.now }
    ensures { (result ≡ ar_rest sheet.now kind place) × (reach result ≤ length sheet.now) }
{
    let first = sheetparts::edge_step(sheet, sheetparts::edge_top(kind), place)?;
    let edge2 = sheetparts::name_step(sheet, END, 1, 2049, first)?;
    let second = sheetparts::edge_step(sheet, sheetparts::edge_top2(kind), edge2)?;
    let least = sheetparts::second_least(kind);
    let most = sheetparts::second_most(kind);
    let values = sheetparts::name_step(sheet, END, least, most, second)?;
    sheetparts::values_step(sheet, kind, 18, values)
}

#[tactic(auto, using(sheetparts::proofs::Steps::passed_on), unfolding(sheetparts::specs::Form::ar_fields))]
fn ar_fields(sheet: &[u8], place: usize) -> Result<usize, Fault>
    requires { place ≤ length sheet.now }
    ensures { (result ≡ ar_fields sheet.now place) × (reach result ≤ length sheet.now) }
{
    let kind_place = sheetparts::mark_step(sheet, b'A', b'R', place)?;
    let next = sheetparts::kind_step(sheet, kind_place)?;
    ar_rest(sheet, sheetparts::peek(sheet, kind_place), next)
}

#[tactic(auto, using(sheetparts::proofs::Steps::passed_on), unfolding(sheetparts::specs::Form::ar_step))]
fn ar_step(sheet: &[u8], prev: usize, place: usize) -> Result<usize, Fault>
    requires { (place ≤ length sheet.now) × ((prev ≡ 0 → ⊥) → values_at sheet.now prev ≤ length sheet.now) }
    ensures { (result ≡ ar_step sheet.now prev place) × (reach result ≤ length sheet.now) }
{
    order_step(sheet, prev, place)?;
    ar_fields(sheet, place)
}

// The arcs, one after the other.
fn arcs_step(sheet: &[u8], count: usize, place: usize) -> Result<usize, Fault>
    requires { place ≤ length sheet.now }
    ensures { (result ≡ arcs_step sheet.now count 0 place) × (reach result ≤ length sheet.now) }
{
    let mut prev = 0;
    let mut here = place;
    for _ in 0..count {
        let next = ar_step(sheet, prev, here)?;
        prev = here;
        here = next;
    }
    Ok(here)
}

#[tactic(auto, using(sheetparts::proofs::Steps::passed_on), unfolding(sheetparts::specs::Form::path_step))]
fn path_step(sheet: &[u8], place: usize) -> Result<usize, Fault>
    requires { place ≤ length sheet.now }
    ensures { (result ≡ path_step sheet.now place) × (reach result ≤ length sheet.now) }
{
    let path = sheetparts::mark_step(sheet, b'I', b'N', place)?;
    sheetparts::len_step(sheet, 0, 1024, path)
}

// The order of the paths of the instances at p and q.
fn path_cmp(sheet: &[u8], p: usize, q: usize) -> u8
    requires { (p + 4 + path_len sheet.now p ≤ length sheet.now) × (q + 4 + path_len sheet.now q ≤ length sheet.now) }
    ensures { result ≡ cmp (path_at sheet.now p) (path_at sheet.now q) }
{
    let m = sheetparts::path_len(sheet, p);
    let n = sheetparts::path_len(sheet, q);
    sheetparts::cmp_parts(sheet, p + 4, m, q + 4, n)
}

// Whether the instance at a place is above the one at prev. A prev of 0 stands for none, as in the definition `in_order_step`.
#[tactic(auto, unfolding(sheetparts::specs::Form::in_order_step))]
fn in_order_step(sheet: &[u8], prev: usize, place: usize) -> Result<usize, Fault>
    requires { (place ≤ length sheet.now) × ((prev ≡ 0 → ⊥) → prev + 4 + path_len sheet.now prev ≤ length sheet.now) }
    ensures { (result ≡ in_order_step sheet.now prev place) × (reach result ≤ length sheet.now) }
{
    if prev == 0 || path_step(sheet, place).is_err() || path_cmp(sheet, prev, place) == 0 {
        return Ok(place);
    }
    Err(Fault {
        number: ORDER,
        place,
    })
}

#[tactic(auto, using(sheetparts::proofs::Steps::passed_on), unfolding(sheetparts::specs::Form::in_fields))]
fn in_fields(sheet: &[u8], place: usize) -> Result<usize, Fault>
    requires { place ≤ length sheet.now }
    ensures { (result ≡ in_fields sheet.now place) × (reach result ≤ length sheet.now) }
{
    let path = sheetparts::mark_step(sheet, b'I', b'N', place)?;
    let after_path = sheetparts::name_step(sheet, PATH, 0, 1024, path)?;
    sheetparts::name_step(sheet, TYPE, 0, 1024, after_path)
}

#[tactic(auto, using(sheetparts::proofs::Steps::passed_on), unfolding(sheetparts::specs::Form::in_step))]
fn in_step(sheet: &[u8], prev: usize, place: usize) -> Result<usize, Fault>
    requires { (place ≤ length sheet.now) × ((prev ≡ 0 → ⊥) → prev + 4 + path_len sheet.now prev ≤ length sheet.now) }
    ensures { (result ≡ in_step sheet.now prev place) × (reach result ≤ length sheet.now) }
{
    in_order_step(sheet, prev, place)?;
    in_fields(sheet, place)
}

// The instances, one after the other. Not one function with arcs_step: a trait for both records, with its ghost step and law, is longer than the two.
fn ins_step(sheet: &[u8], count: usize, place: usize) -> Result<usize, Fault>
    requires { place ≤ length sheet.now }
    ensures { (result ≡ ins_step sheet.now count 0 place) × (reach result ≤ length sheet.now) }
{
    let mut prev = 0;
    let mut here = place;
    for _ in 0..count {
        let next = in_step(sheet, prev, here)?;
        prev = here;
        here = next;
    }
    Ok(here)
}

// Mark, format, two counts.
#[tactic(auto, using(sheetparts::proofs::Steps::passed_on), unfolding(sheetparts::specs::Form::head_step))]
fn head_step(sheet: &[u8]) -> Result<usize, Fault>
    ensures { (result ≡ head_step sheet.now) × (reach result ≤ length sheet.now) }
{
    let format = sheetparts::mark_step(sheet, b'H', b'D', 0)?;
    let instances = sheetparts::format_step(sheet, format)?;
    let arcs = sheetparts::room_step(sheet, 4, instances)?;
    sheetparts::room_step(sheet, 4, arcs)
}

#[tactic(auto, unfolding(sheetparts::specs::Form::end_step))]
fn end_step(sheet: &[u8], place: usize) -> Result<usize, Fault>
    requires { place ≤ length sheet.now }
    ensures { (result ≡ end_step sheet.now place) × (reach result ≤ length sheet.now) }
{
    if place != sheet.len() {
        return Err(Fault {
            number: FORM,
            place,
        });
    }
    Ok(place)
}

// Up to the first arc.
#[tactic(auto, using(sheetparts::proofs::Steps::passed_on), unfolding(sheetparts::specs::Form::front_step))]
fn front_step(sheet: &[u8]) -> Result<usize, Fault>
    ensures { (result ≡ front_step sheet.now) × (reach result ≤ length sheet.now) }
{
    let instances = head_step(sheet)?;
    ins_step(sheet, wire::u32_at(sheet, 4), instances)
}

// The arcs, and the end.
#[tactic(auto, using(sheetparts::proofs::Steps::passed_on), unfolding(sheetparts::specs::Form::back_step))]
fn back_step(sheet: &[u8], first: usize) -> Result<usize, Fault>
    requires { (first ≤ length sheet.now) × (12 ≤ length sheet.now) }
    ensures { (result ≡ back_step sheet.now first) × (reach result ≤ length sheet.now) }
{
    let end = arcs_step(sheet, wire::u32_at(sheet, 8), first)?;
    end_step(sheet, end)
}

// Whether the bytes are a sheet: its counts and the place of its first arc, or the first fault.
#[tactic(auto, using(sheetparts::proofs::Steps::passed_on), unfolding(sheetparts::specs::Form::check_of))]
pub fn check_sheet(sheet: &[u8]) -> Result<Outline, Fault>
    ensures { result ≡ check_of sheet.now }
{
    if sheet.len() > 16777216 {
        return Err(Fault {
            number: FORM,
            place: 0,
        });
    }
    let first_arc = front_step(sheet)?;
    back_step(sheet, first_arc)?;
    Ok(Outline {
        instances: wire::u32_at(sheet, 4),
        arcs: wire::u32_at(sheet, 8),
        first_arc,
    })
}
