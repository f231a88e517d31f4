// The entry list lent as records: a thin function over a slice of entries, above the table of words that the core fills.
#![tactic(auto)]

ghost use Rattle.std.specs.Prelude.{◌≡◌, ◌++◌, ◌+◌, ◌*◌, ◌≤◌, length, drop};
ghost use Rattle.entryrecords.specs.Entries.{numbers_at, entry_of, entries_of};

use grammar::Entry;

// An entry with its values: how many are written, and the minimum, the typical and the maximum of each of six, as the table has them.
#[derive(Clone, Copy)]
pub struct EntryRecord {
    pub head: Entry,
    pub count: usize,
    pub numbers: [u64; 18],
}

// The 18 numbers from a place on.
fn numbers_at(table: &[u64], at: usize) -> [u64; 18]
    requires { at + 18 ≤ length table.now }
    ensures { result ≡ numbers_at table.now at }
{
    let mut numbers = [0; 18];
    numbers.copy_from_slice(&table[at..at + 18]);
    numbers
}

// The entry in row k of a table of entries.
pub fn entry_at(table: &[u64], k: usize) -> EntryRecord
    requires { 28 * k + 28 ≤ length table.now }
    ensures { result ≡ entry_of table.now k }
{
    EntryRecord {
        head: views::head_at(table, 28 * k),
        count: table[28 * k + 9] as usize,
        numbers: numbers_at(table, 28 * k + 10),
    }
}

// Fills the first n records from the first n rows of a table of entries. The records behind them stay as lent.
pub fn fill_entries(records: &mut [EntryRecord], table: &[u64], n: usize)
    requires { (n ≤ length records.old) × (28 * n ≤ length table.now) }
    ensures { records.new ≡ entries_of table.now n ++ drop n records.old }
{
    for k in 0..n {
        records[k] = entry_at(table, k);
    }
}
