// Reading back the tables that a reading left: a row as a struct by value.
ghost use Rattle.std.specs.Prelude.{◌≡◌, ◌+◌, ◌%◌, ◌≤◌, length};
ghost use Rattle.views.specs.Views.{cell_at, head_at};

use grammar::{Cell, Entry};

// A word that holds a byte. `as` alone asks that it does, which a table that is lent does not say.
fn byte(word: u64) -> u8
    ensures { result ≡ word % 256 }
{
    (word % 256) as u8
}

// The cell in the 7 words from a place on.
pub fn cell_at(table: &[u64], at: usize) -> Cell
    requires { at + 7 ≤ length table.now }
    ensures { result ≡ cell_at table.now at }
{
    Cell {
        place: table[at] as usize,
        typefrom: table[at + 1] as usize,
        typeto: table[at + 2] as usize,
        sort: byte(table[at + 3]),
        pathfrom: table[at + 4] as usize,
        pathto: table[at + 5] as usize,
        entries: table[at + 6] as usize,
    }
}

// The entry, all of it but its values, in the 28 words from a place on.
pub fn head_at(table: &[u64], at: usize) -> Entry
    requires { at + 28 ≤ length table.now }
    ensures { result ≡ head_at table.now at }
{
    Entry {
        kind: byte(table[at]),
        group: byte(table[at + 1]),
        place: table[at + 2] as usize,
        edge1: byte(table[at + 3]),
        from1: table[at + 4] as usize,
        to1: table[at + 5] as usize,
        edge2: byte(table[at + 6]),
        from2: table[at + 7] as usize,
        to2: table[at + 8] as usize,
    }
}
