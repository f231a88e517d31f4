// The annotator, with the cell list lent as records too: a thin function over a slice of cells, above the tables of words that the core fills.
#![tactic(auto)]

ghost use Rattle.std.specs.Prelude.{◌≡◌, ◌*◌, ◌/◌, ◌<◌, length};
ghost use Rattle.meaning.specs.Meaning.{course};
ghost use Rattle.readrecords.specs.Reading.{room_for};
ghost use Rattle.records.specs.Annotating.{CountedWithin, RecordsOut};

use annotate::Counted;
use grammar::Cell;

// The core's annotator, where so many cells have a record, as read_within.
fn annotate_within(
    start: &[u8],
    text: &[u8],
    table: &mut [u64],
    entries: &mut [u64],
    out: &mut [u8],
    room: usize,
) -> Counted
    ensures { CountedWithin start.now (course start.now text.now (room_for (length table.old) room)
        (length entries.old / 28) (length out.old)) room table.old table.new entries.old
        entries.new out.old out.new result }
{
    if room < table.len() / 7 {
        return annotate::annotate_counted(start, text, &mut table[..7 * room], entries, out);
    }
    annotate::annotate_counted(start, text, table, entries, out)
}

fn cells_counted(counted: Counted) -> usize
    ensures { result ≡ counted.cells }
{
    counted.cells
}

// Annotates as annotate::annotate does, and puts the cells that were read into records too, with room as read_file_records has it. The answer
// says how many there are: none of a text that was refused or not reached, whose records stay as lent.
pub fn annotate_records(
    start: &[u8],
    text: &[u8],
    table: &mut [u64],
    entries: &mut [u64],
    out: &mut [u8],
    records: &mut [Cell],
) -> Counted
    ensures { RecordsOut start.now (course start.now text.now
        (room_for (length table.old) (length records.old)) (length entries.old / 28) (length out.old))
        table.old table.new entries.old entries.new out.old out.new
        records.old records.new result }
{
    let room = records.len();
    let counted = annotate_within(start, text, table, entries, out, room);
    let n = cells_counted(counted);
    cellrecords::fill_records(records, table, n);
    counted
}
