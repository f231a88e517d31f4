// What C calls: the functions of the library `boomcrutch`, under its names and with its contracts, as host/include/boomcrutch.h has them.
#![tactic(auto)]

ghost use Rattle.std.specs.Prelude.{◌≡◌, ◌/◌, length};
ghost use Rattle.tokens.specs.Stream.{stream, count};
ghost use Rattle.grammar.specs.Outcome.{read_file};
ghost use Rattle.tables.specs.Left.{cells_left, entries_left};
ghost use Rattle.sheetparts.specs.Form.{check_of};
ghost use Rattle.answers.specs.Annotating.{course, cells_out, entries_out, out_of};
ghost use Rattle.answers.specs.Patching as patching;
ghost use Rattle.answers.specs.Exports.{annotated_numbers, PatchLeft, read_numbers, cell_by, sheet_numbers};

use answers::{ReadNumbers, ResultNumbers, SheetNumbers};

// How many tokens a text has before what ends them.
#[unsafe(no_mangle)]
pub extern "C" fn boomcrutch_count_tokens(text: &[u8]) -> usize
    ensures { result ≡ count (stream text.now 0).toks }
{
    boomcrutch::boomcrutch_count_tokens(text)
}

// Reads a file into the two tables.
#[unsafe(no_mangle)]
pub extern "C" fn boomcrutch_read_file(
    text: &[u8],
    cells: &mut [u64],
    entries: &mut [u64],
) -> ReadNumbers
    ensures { (result ≡ read_numbers (read_file (length cells.old / 7) (length entries.old / 28) text.now))
        × (cells.new ≡ cells_left (read_file (length cells.old / 7) (length entries.old / 28) text.now) cells.old)
        × (entries.new ≡ entries_left (read_file (length cells.old / 7) (length entries.old / 28) text.now) entries.old) }
{
    boomcrutch::boomcrutch_read_file(text, cells, entries)
}

// Reads a text that is one cell into the two tables, by the divider (0 for ., 1 for /) and the time scale of its file.
#[unsafe(no_mangle)]
pub extern "C" fn boomcrutch_read_cell(
    text: &[u8],
    slash: u64,
    scale: u64,
    cells: &mut [u64],
    entries: &mut [u64],
) -> ReadNumbers
    ensures { (result ≡ read_numbers (cell_by slash scale (length cells.old / 7) (length entries.old / 28) text.now))
        × (cells.new ≡ cells_left (cell_by slash scale (length cells.old / 7) (length entries.old / 28) text.now) cells.old)
        × (entries.new ≡ entries_left (cell_by slash scale (length cells.old / 7) (length entries.old / 28) text.now) entries.old) }
{
    boomcrutch::boomcrutch_read_cell(text, slash, scale, cells, entries)
}

// Checks a timing sheet.
#[unsafe(no_mangle)]
pub extern "C" fn boomcrutch_check_sheet(sheet: &[u8]) -> SheetNumbers
    ensures { result ≡ sheet_numbers (check_of sheet.now) }
{
    boomcrutch::boomcrutch_check_sheet(sheet)
}

// Annotates the starting sheet with a file.
#[unsafe(no_mangle)]
pub extern "C" fn boomcrutch_annotate(
    start: &[u8],
    text: &[u8],
    cells: &mut [u64],
    entries: &mut [u64],
    out: &mut [u8],
) -> ResultNumbers
    ensures { (result ≡ annotated_numbers (course start.now text.now (length cells.old / 7)
        (length entries.old / 28) (length out.old)))
        × (cells.new ≡ cells_out cells.old (course start.now text.now (length cells.old / 7)
        (length entries.old / 28) (length out.old)))
        × (entries.new ≡ entries_out entries.old (course start.now text.now (length cells.old / 7)
        (length entries.old / 28) (length out.old)))
        × (out.new ≡ out_of start.now out.old (course start.now text.now
        (length cells.old / 7) (length entries.old / 28) (length out.old))) }
{
    boomcrutch::boomcrutch_annotate(start, text, cells, entries, out)
}

// Patches the current sheet: cell `number` of the file, from 1, is swapped for the incoming one.
#[unsafe(no_mangle)]
pub extern "C" fn boomcrutch_patch<'a>(
    start: &[u8],
    file: &'a [u8],
    number: u64,
    incoming: &'a [u8],
    current: &mut [u8],
    cells: &mut [u64],
    entries: &mut [u64],
    incoming_cells: &mut [u64],
    incoming_entries: &mut [u64],
) -> ResultNumbers
    ensures { PatchLeft start.now (patching.course start.now file.now number incoming.now current.old
        (length cells.old / 7) (length entries.old / 28) (length incoming_cells.old / 7)
        (length incoming_entries.old / 28)) cells.old cells.new entries.old entries.new
        incoming_cells.old incoming_cells.new incoming_entries.old incoming_entries.new
        current.old current.new result }
{
    boomcrutch::boomcrutch_patch(
        start,
        file,
        number,
        incoming,
        current,
        cells,
        entries,
        incoming_cells,
        incoming_entries,
    )
}
