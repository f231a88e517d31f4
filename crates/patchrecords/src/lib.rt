// The cell lists of a patch lent as records: a thin function above the core's patch.
#![tactic(auto)]

ghost use Rattle.std.specs.Prelude.{◌/◌, length};
ghost use Rattle.readrecords.specs.Reading.{room_for};
ghost use Rattle.patch.specs.Meaning.{course};
ghost use Rattle.patchwithin.specs.Patching.{PatchedRecords};

use grammar::Cell;
use patch::Counted;

// Patches as patch::patch does, and puts the cells that were read of the file and of the incoming text into records too. There is room for as
// many cells of a text as its table has rows and the caller records. The answer says how many there are: none of a text that was refused or not
// reached, whose records stay as lent, as those behind the last cell do.
pub fn patch_records<'a>(
    start: &[u8],
    file: &'a [u8],
    number: usize,
    incoming: &'a [u8],
    current: &mut [u8],
    table: &mut [u64],
    entries: &mut [u64],
    records: &mut [Cell],
    table2: &mut [u64],
    entries2: &mut [u64],
    records2: &mut [Cell],
) -> Counted
    ensures { PatchedRecords start.now (course start.now file.now number incoming.now
        current.old (room_for (length table.old) (length records.old)) (length entries.old / 28)
        (room_for (length table2.old) (length records2.old)) (length entries2.old / 28))
        table.old table.new entries.old entries.new table2.old table2.new
        entries2.old entries2.new current.old current.new records.old records.new
        records2.old records2.new result }
{
    let room = records.len();
    let room2 = records2.len();
    let counted = patchwithin::patch_within(
        start, file, number, incoming, current, table, entries, table2, entries2, room, room2,
    );
    let n = patchwithin::file_cells(counted);
    let m = patchwithin::incoming_cells(counted);
    cellrecords::fill_records(records, table, n);
    cellrecords::fill_records(records2, table2, m);
    counted
}
