// The reader, with the cell list lent as records too.
#![tactic(auto)]

ghost use Rattle.std.specs.Prelude.{◌≡◌, ◌*◌, ◌/◌, ◌<◌, length};
ghost use Rattle.grammar.specs.Outcome.{read_file, read_cell_of};
ghost use Rattle.readrecords.specs.Reading.{room_for, count_of, WithinIs, RecordsAre};

use grammar::Cell;
use readcells::FileRead;

// The core's reader, where so many cells have a record: it is lent the part of the table that has a row for each.
fn read_within(text: &[u8], table: &mut [u64], entries: &mut [u64], room: usize) -> FileRead
    ensures { WithinIs (read_file (room_for (length table.old) room) (length entries.old / 28) text.now) room
        table.old table.new entries.old entries.new result }
{
    if room < table.len() / 7 {
        return reader::read_file(text, &mut table[..7 * room], entries);
    }
    reader::read_file(text, table, entries)
}

// How many cells were read: none of a refused text.
fn cells_read(read: FileRead) -> usize
    ensures { result ≡ count_of read.answer }
{
    match read.answer {
        Ok(counts) => counts.cells,
        Err(_) => 0,
    }
}

// Reads a file as reader::read_file does, and the cells that were read into records too. There is room for as many cells as the table has rows
// and the caller records. A refused file leaves all three as lent; the records behind the last cell stay as lent.
pub fn read_file_records(
    text: &[u8],
    table: &mut [u64],
    entries: &mut [u64],
    records: &mut [Cell],
) -> FileRead
    ensures { RecordsAre (read_file (room_for (length table.old) (length records.old)) (length entries.old / 28)
        text.now) table.old table.new entries.old entries.new records.old
        records.new result }
{
    let room = records.len();
    let read = read_within(text, table, entries, room);
    let n = cells_read(read);
    cellrecords::fill_records(records, table, n);
    read
}

// The core's reader of one cell, where so many cells have a record, as read_within.
fn read_cell_within(
    text: &[u8],
    slash: bool,
    unit: u8,
    table: &mut [u64],
    entries: &mut [u64],
    room: usize,
) -> FileRead
    ensures { WithinIs (read_cell_of slash unit (room_for (length table.old) room) (length entries.old / 28) text.now) room
        table.old table.new entries.old entries.new result }
{
    if room < table.len() / 7 {
        return onecell::read_cell(text, slash, unit, &mut table[..7 * room], entries);
    }
    onecell::read_cell(text, slash, unit, table, entries)
}

// Reads a text that is one cell as onecell::read_cell does, and the cell into a record too, with room and what is left as read_file_records has it.
pub fn read_cell_records(
    text: &[u8],
    slash: bool,
    unit: u8,
    table: &mut [u64],
    entries: &mut [u64],
    records: &mut [Cell],
) -> FileRead
    ensures { RecordsAre (read_cell_of slash unit (room_for (length table.old) (length records.old))
        (length entries.old / 28) text.now) table.old table.new entries.old entries.new
        records.old records.new result }
{
    let room = records.len();
    let read = read_cell_within(text, slash, unit, table, entries, room);
    let n = cells_read(read);
    cellrecords::fill_records(records, table, n);
    read
}
