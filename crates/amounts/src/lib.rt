// The values of one arc, and what an entry supplies to them. A value is a word as on the sheet and in the tables: femtoseconds in two's
// complement, and the least number for one that is empty or absent.
#![tactic(auto)]

ghost use Rattle.std.specs.Prelude.{◌≡◌, ◌+◌, ◌*◌, ◌<◌, ◌≤◌, length};
ghost use Rattle.amounts.specs.Amounts.{near, refusal, changed, refused, lesser_refusal, arc_refusal, value_written, arc_written, choice, value_row, expanded};

const EMPTY: u64 = 0x8000_0000_0000_0000;

const LIMIT: u64 = 1_000_000_000_000_000;

// 2^64 less the limit.
const LEAST: u64 = 18_445_744_073_709_551_616;

// Whether a word is a time within the limit, either way.
#[tactic(auto, unfolding(crate::specs::Amounts::near))]
fn is_near(word: u64) -> bool
    ensures { result ≡ near word }
{
    word <= LIMIT || word >= LEAST
}

// What is refused where a value is given another: INCREMENT to an empty one, and a sum beyond the limit.
#[tactic(auto, unfolding(crate::specs::Amounts::refusal, crate::specs::Amounts::refused))]
pub fn refusal_of(add: bool, old: u64, given: u64) -> Option<u8>
    ensures { result ≡ refused (refusal add old given) }
{
    if given == EMPTY || !add {
        return None;
    }
    if old == EMPTY {
        return Some(15);
    }
    if is_near(old.wrapping_add(given)) {
        return None;
    }
    Some(16)
}

#[tactic(auto, unfolding(crate::specs::Amounts::changed))]
pub fn changed_to(add: bool, old: u64, given: u64) -> u64
    ensures { result ≡ changed add old given }
{
    if add { old.wrapping_add(given) } else { given }
}

// The lesser of two refusals.
#[tactic(auto, unfolding(crate::specs::Amounts::lesser_refusal))]
pub fn lesser_of(a: Option<u8>, b: Option<u8>) -> Option<u8>
    ensures { result ≡ lesser_refusal a b }
{
    match (a, b) {
        (Some(m), Some(n)) => Some(m.min(n)),
        (None, _) => b,
        (_, None) => a,
    }
}

// What the 18 values from a place of the sheet on say to the expanded list: the least of 15 and 16.
pub fn arc_refusal(sheet: &[u8], at: usize, rows: [[u64; 3]; 6], add: bool) -> Option<u8>
    requires { at + 144 ≤ length sheet.now }
    ensures { result ≡ refused (arc_refusal sheet.now at rows add 18) }
{
    let mut least = None;
    for slot in 0..18 {
        let old = wire::u64_at(sheet, at + 8 * slot);
        least = lesser_of(least, refusal_of(add, old, rows[slot / 3][slot % 3]));
    }
    least
}

fn write_value(sheet: &mut [u8], at: usize, word: u64, add: bool)
    requires { at + 8 ≤ length sheet.old }
    ensures { sheet.new ≡ value_written sheet.old at word add }
{
    if word == EMPTY {
        return;
    }
    let old = wire::u64_at(sheet, at);
    wire::write_i64(sheet, at, wire::of_bits(changed_to(add, old, word)));
}

// Writes what the expanded list makes of them.
pub fn write_arc(sheet: &mut [u8], at: usize, rows: [[u64; 3]; 6], add: bool)
    requires { at + 144 ≤ length sheet.old }
    ensures { sheet.new ≡ arc_written sheet.old at rows add 18 }
{
    for slot in 0..18 {
        write_value(sheet, at + 8 * slot, rows[slot / 3][slot % 3], add);
    }
}

// Value k of the six that stand in a table from a place on; none past the last.
#[tactic(auto, unfolding(crate::specs::Amounts::value_row))]
fn value_row(table: &[u64], at: usize, k: usize) -> [u64; 3]
    requires { at + 18 ≤ length table.now }
    ensures { result ≡ value_row table.now at k }
{
    if k >= 6 {
        return [EMPTY; 3];
    }
    let from = at + 3 * k;
    [table[from], table[from + 1], table[from + 2]]
}

// Which value goes to each row.
#[tactic(auto, unfolding(crate::specs::Amounts::choice, crate::specs::Amounts::delay_choice))]
fn choice_of(check: bool, count: u64) -> [usize; 6]
    ensures { result ≡ choice check count }
{
    if check {
        return [0, 1, 6, 6, 6, 6];
    }
    match count {
        1 => [0; 6],
        2 => [0, 1, 0, 0, 1, 1],
        3 => [0, 1, 2, 0, 2, 1],
        _ => [0, 1, 2, 3, 4, 5],
    }
}

// The expanded list: six rows of three.
pub fn expand(table: &[u64], at: usize, check: bool, count: u64) -> [[u64; 3]; 6]
    requires { at + 18 ≤ length table.now }
    ensures { result ≡ expanded table.now at check count }
{
    let c = choice_of(check, count);
    [
        value_row(table, at, c[0]),
        value_row(table, at, c[1]),
        value_row(table, at, c[2]),
        value_row(table, at, c[3]),
        value_row(table, at, c[4]),
        value_row(table, at, c[5]),
    ]
}
