// The records of a reading, in tables of words that the caller lends.
#![tactic(auto)]

ghost use Rattle.std.specs.Prelude.{◌≡◌, ◌+◌, ◌*◌, ◌≤◌, length, take};
ghost use Rattle.tables.specs.Layout.{amount_word, value_words, values_row, head_row, cell_row, entry_row};
ghost use Rattle.tables.specs.Pastes.{put};

use grammar::{Cell, Entry, ReadEntry, Value};
use wire::bits_of;

// A value that is not written.
const NOTHING: Value = Value {
    min: None,
    typ: None,
    max: None,
};

fn amount_word(amount: Option<i64>) -> u64
    ensures { result ≡ amount_word amount }
{
    match amount {
        None => 0x8000_0000_0000_0000,
        Some(z) => bits_of(z),
    }
}

fn value_words(v: Value) -> [u64; 3]
    ensures { result ≡ value_words v }
{
    [amount_word(v.min), amount_word(v.typ), amount_word(v.max)]
}

fn head_words(e: Entry, count: usize) -> [u64; 10]
    ensures { result ≡ head_row e count }
{
    [
        e.kind as u64,
        e.group as u64,
        e.place as u64,
        e.edge1 as u64,
        e.from1 as u64,
        e.to1 as u64,
        e.edge2 as u64,
        e.from2 as u64,
        e.to2 as u64,
        count as u64,
    ]
}

fn cell_words(c: Cell) -> [u64; 7]
    ensures { result ≡ cell_row c }
{
    [
        c.place as u64,
        c.typefrom as u64,
        c.typeto as u64,
        c.sort as u64,
        c.pathfrom as u64,
        c.pathto as u64,
        c.entries as u64,
    ]
}

// The words go to a place of the table.
fn put_words(table: &mut [u64], place: usize, words: &[u64])
    requires { place + length words.now ≤ length table.old }
    ensures { table.new ≡ put table.old place words.now }
{
    table[place..place + words.len()].copy_from_slice(words);
}

// Record k of a table of cells.
pub fn put_cell(table: &mut [u64], k: usize, c: Cell)
    requires { 7 * k + 7 ≤ length table.old }
    ensures { table.new ≡ put table.old (7 * k) (cell_row c) }
{
    put_words(table, 7 * k, &cell_words(c));
}

// Six values, those behind the first count absent.
fn put_values(table: &mut [u64], place: usize, list: [Value; 6], count: usize)
    requires { (place + 18 ≤ length table.old) × (count ≤ 6) }
    ensures { (table.new ≡ put table.old place (values_row (take count list) 6)) × (length (take count list) ≡ count) }
{
    for i in 0..6 {
        let value = if i < count { list[i] } else { NOTHING };
        put_words(table, place + 3 * i, &value_words(value));
    }
}

// Record k of a table of entries.
pub fn put_entry(table: &mut [u64], k: usize, e: ReadEntry)
    requires { 28 * k + 28 ≤ length table.old }
    ensures { table.new ≡ put table.old (28 * k) (entry_row (record { head = e.entry; values = take e.values.count e.values.list })) }
{
    let values = e.values;
    put_words(table, 28 * k, &head_words(e.entry, values.count));
    put_values(table, 28 * k + 10, values.list, values.count);
}
