// Cells in a lent slice of records: how many it has room for, the one at a number, and as many of them as a table of cells has rows.
#![tactic(auto)]

ghost use Rattle.std.specs.Prelude.{◌≡◌, ◌++◌, ◌+◌, ◌*◌, ◌≤◌, ◌<◌, length, get_or, set, drop};
ghost use Rattle.cellrecords.specs.Records.{no_record, record_of, records_of};

use grammar::Cell;

// How many records a slice has room for.
pub fn record_count(records: &[Cell]) -> usize
    ensures { result ≡ length records.now }
{
    records.len()
}

// The record at a number.
pub fn record_at(records: &[Cell], k: usize) -> Cell
    requires { k < length records.now }
    ensures { result ≡ get_or records.now k no_record }
{
    records[k]
}

// Stores a record at a number.
pub fn store_record(records: &mut [Cell], k: usize, cell: Cell)
    requires { k < length records.old }
    ensures { records.new ≡ set records.old k cell }
{
    records[k] = cell;
}

// Row k of a table of cells.
fn row_at(table: &[u64], k: usize) -> Cell
    requires { 7 * k + 7 ≤ length table.now }
    ensures { result ≡ record_of table.now k }
{
    views::cell_at(table, 7 * k)
}

// Fills the first n records from the first n rows of a table of cells. The records behind them stay as lent.
pub fn fill_records(records: &mut [Cell], table: &[u64], n: usize)
    requires { (n ≤ length records.old) × (7 * n ≤ length table.now) }
    ensures { records.new ≡ records_of table.now n ++ drop n records.old }
{
    for k in 0..n {
        records[k] = row_at(table, k);
    }
}
