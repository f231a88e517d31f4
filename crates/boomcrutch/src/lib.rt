// What Rust and C call: the functions of the library, which `boomcrutch_c` gives to C under the same names. Each takes whatever it is given; bad input
// gets its refusal.
#![tactic(auto)]

ghost use Rattle.std.specs.Prelude.{◌≡◌, ◌/◌, length};
ghost use Rattle.tokens.specs.Stream.{stream, count};
ghost use Rattle.grammar.specs.Outcome.{read_file};
ghost use Rattle.tables.specs.Left.{cells_left, entries_left};
ghost use Rattle.sheetparts.specs.Form.{check_of};
ghost use Rattle.answers.specs.Annotating.{course, cells_out, entries_out, out_of};
ghost use Rattle.answers.specs.Patching as patching;
ghost use Rattle.answers.specs.Exports.{annotated_numbers, PatchLeft, read_numbers, cell_by, sheet_numbers};

use answers::annotate::annotate;
use answers::onecell::read_cell;
use answers::patch::patch;
use answers::reader::read_file;
use answers::{ReadNumbers, ResultNumbers, SheetNumbers};
use sheetform::check_sheet;
use tokens::count_tokens;

// How many tokens a text has before what ends them.
pub fn boomcrutch_count_tokens(text: &[u8]) -> usize
    ensures { result ≡ count (stream text.now 0).toks }
{
    count_tokens(text)
}

// Reads a file into the two tables.
pub fn boomcrutch_read_file(text: &[u8], cells: &mut [u64], entries: &mut [u64]) -> ReadNumbers
    ensures { (result ≡ read_numbers (read_file (length cells.old / 7) (length entries.old / 28) text.now))
        × (cells.new ≡ cells_left (read_file (length cells.old / 7) (length entries.old / 28) text.now) cells.old)
        × (entries.new ≡ entries_left (read_file (length cells.old / 7) (length entries.old / 28) text.now) entries.old) }
{
    let read = read_file(text, cells, entries);
    answers::numbers(read)
}

// Reads a text that is one cell into the two tables, by the divider (0 for ., 1 for /) and the time scale of its file.
pub fn boomcrutch_read_cell(
    text: &[u8],
    slash: u64,
    scale: u64,
    cells: &mut [u64],
    entries: &mut [u64],
) -> ReadNumbers
    ensures { (result ≡ read_numbers (cell_by slash scale (length cells.old / 7) (length entries.old / 28) text.now))
        × (cells.new ≡ cells_left (cell_by slash scale (length cells.old / 7) (length entries.old / 28) text.now) cells.old)
        × (entries.new ≡ entries_left (cell_by slash scale (length cells.old / 7) (length entries.old / 28) text.now) entries.old) }
{
    if 1 < slash {
        return answers::no_setting();
    }
    if 17 < scale {
        return answers::no_setting();
    }
    let read = read_cell(text, slash == 1, scale as u8, cells, entries);
    answers::numbers(read)
}

// Checks a timing sheet.
pub fn boomcrutch_check_sheet(sheet: &[u8]) -> SheetNumbers
    ensures { result ≡ sheet_numbers (check_of sheet.now) }
{
    let check = check_sheet(sheet);
    answers::sheet_numbers(check)
}

// Annotates the starting sheet with a file.
pub fn boomcrutch_annotate(
    start: &[u8],
    text: &[u8],
    cells: &mut [u64],
    entries: &mut [u64],
    out: &mut [u8],
) -> ResultNumbers
    ensures { (result ≡ annotated_numbers (course start.now text.now (length cells.old / 7)
        (length entries.old / 28) (length out.old)))
        × (cells.new ≡ cells_out cells.old (course start.now text.now (length cells.old / 7)
        (length entries.old / 28) (length out.old)))
        × (entries.new ≡ entries_out entries.old (course start.now text.now (length cells.old / 7)
        (length entries.old / 28) (length out.old)))
        × (out.new ≡ out_of start.now out.old (course start.now text.now
        (length cells.old / 7) (length entries.old / 28) (length out.old))) }
{
    let answer = annotate(start, text, cells, entries, out);
    answers::annotated_numbers(answer)
}

// Patches the current sheet: cell `number` of the file, from 1, is swapped for the incoming one.
pub fn boomcrutch_patch<'a>(
    start: &[u8],
    file: &'a [u8],
    number: u64,
    incoming: &'a [u8],
    current: &mut [u8],
    cells: &mut [u64],
    entries: &mut [u64],
    incoming_cells: &mut [u64],
    incoming_entries: &mut [u64],
) -> ResultNumbers
    ensures { PatchLeft start.now (patching.course start.now file.now number incoming.now current.old
        (length cells.old / 7) (length entries.old / 28) (length incoming_cells.old / 7)
        (length incoming_entries.old / 28)) cells.old cells.new entries.old entries.new
        incoming_cells.old incoming_cells.new incoming_entries.old incoming_entries.new
        current.old current.new result }
{
    let answer = patch(
        start,
        file,
        number as usize,
        incoming,
        current,
        cells,
        entries,
        incoming_cells,
        incoming_entries,
    );
    answers::patched_numbers(answer)
}
