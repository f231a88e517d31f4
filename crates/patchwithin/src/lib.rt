// patch, where only so many cells of each text have a record.
#![tactic(auto)]

ghost use Rattle.std.specs.Prelude.{◌≡◌, ◌/◌, ◌≤◌, length};
ghost use Rattle.readrecords.specs.Reading.{room_for};
ghost use Rattle.patch.specs.Meaning.{course};
ghost use Rattle.patch.specs.Counted.{CountedIs};
ghost use Rattle.patchwithin.specs.Patching.{PatchWithin};

use patch::Counted;

// The core's patch, where so many cells of the incoming text have a record: it is lent the part of that text's table that has a row for each.
fn patch_incoming_within<'a>(
    start: &[u8],
    file: &'a [u8],
    number: usize,
    incoming: &'a [u8],
    current: &mut [u8],
    table: &mut [u64],
    entries: &mut [u64],
    table2: &mut [u64],
    entries2: &mut [u64],
    room2: usize,
) -> Counted
    ensures { CountedIs start.now (course start.now file.now number incoming.now current.old
        (length table.old / 7) (length entries.old / 28) (room_for (length table2.old) room2)
        (length entries2.old / 28)) table.old table.new entries.old entries.new
        table2.old table2.new entries2.old entries2.new current.old current.new result
        × (result.incoming ≤ room2) }
{
    if room2 < table2.len() / 7 {
        return patch::patch_counted(
            start,
            file,
            number,
            incoming,
            current,
            table,
            entries,
            &mut table2[..7 * room2],
            entries2,
        );
    }
    patch::patch_counted(
        start, file, number, incoming, current, table, entries, table2, entries2,
    )
}

// And where so many cells of the file have a record too.
pub fn patch_within<'a>(
    start: &[u8],
    file: &'a [u8],
    number: usize,
    incoming: &'a [u8],
    current: &mut [u8],
    table: &mut [u64],
    entries: &mut [u64],
    table2: &mut [u64],
    entries2: &mut [u64],
    room: usize,
    room2: usize,
) -> Counted
    ensures { PatchWithin start.now (course start.now file.now number incoming.now current.old
        (room_for (length table.old) room) (length entries.old / 28) (room_for (length table2.old) room2)
        (length entries2.old / 28)) room room2 table.old table.new entries.old entries.new
        table2.old table2.new entries2.old entries2.new current.old current.new result }
{
    if room < table.len() / 7 {
        return patch_incoming_within(
            start,
            file,
            number,
            incoming,
            current,
            &mut table[..7 * room],
            entries,
            table2,
            entries2,
            room2,
        );
    }
    patch_incoming_within(
        start, file, number, incoming, current, table, entries, table2, entries2, room2,
    )
}

// How many cells of the file were read.
pub fn file_cells(counted: Counted) -> usize
    ensures { result ≡ counted.cells }
{
    counted.cells
}

// How many cells of the incoming text were read.
pub fn incoming_cells(counted: Counted) -> usize
    ensures { result ≡ counted.incoming }
{
    counted.incoming
}
