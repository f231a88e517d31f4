// Patching: one re-issued cell in a sheet that was annotated before (document 01, 'Patching'): its texts are read, then the cell is swapped.
#![tactic(auto)]

ghost use Rattle.std.specs.Prelude.{Ok, ◌≡◌, true, ◌*◌, ◌/◌, ◌≤◌, ◌<◌, length};
ghost use Rattle.sheetparts.specs.Form.{Good, check_of};
ghost use Rattle.meant.specs.Same.{same_records};
ghost use Rattle.grammar.specs.Outcome.{read_cell_of};
ghost use Rattle.meant.specs.Cells.{entries_before};
ghost use Rattle.patch.specs.Incoming.{CellPatched};
ghost use Rattle.swap.specs.declared.Patched.TheVariants.{Refused};
ghost use Rattle.patch.specs.Meaning.{course, PatchIs};
ghost use Rattle.patch.specs.Counted.{cells_read, CountedIs};

use meant::entryarcs::Plan;
use meant::sheet;
use sheetparts::Outline;
use swap::Patched;
use swaparcs::Swap;

// What stands below, for the crates above.
pub use annotate;
pub use meant::meaning;
pub use onecell;
pub use readcells;
pub use reader;
pub use swap;

// The answer, with the number of cells that were read of the file and of the incoming text: none of a text that was refused or not reached.
#[derive(Clone, Copy)]
pub struct Counted {
    pub answer: Patched,
    pub cells: usize,
    pub incoming: usize,
}

// The starting sheet, the file that it was annotated from, and the incoming cell's text.
#[derive(Clone, Copy)]
struct Texts<'a> {
    start: &'a [u8],
    file: &'a [u8],
    incoming: &'a [u8],
}

// How many entries the first cells of a table have.
fn count_entries(cells: &[u64], count: usize) -> usize
    requires { (7 * count ≤ length cells.now) × (28 * entries_before cells.now count < 18446744073709551616) }
    ensures { result ≡ entries_before cells.now count }
{
    let mut sum = 0;
    for k in 0..count {
        sum += cells[7 * k + 6] as usize;
    }
    sum
}

// A refusal, where so many cells of the file were read and none of the incoming text.
fn refused_after(number: u8, place: usize, incoming: bool, cells: usize) -> Counted
    ensures { result ≡ record { answer = Refused number place incoming; cells = cells; incoming = 0 } }
{
    Counted {
        answer: swap::refused(number, place, incoming),
        cells,
        incoming: 0,
    }
}

// Patches the current sheet: cell `number` of the file, from 1, is swapped for the incoming one. Each refusal has the paper's number, its
// place and its text; after one the current sheet is as it was.
pub fn patch_counted<'a>(
    start: &[u8],
    file: &'a [u8],
    number: usize,
    incoming: &'a [u8],
    current: &mut [u8],
    cells: &mut [u64],
    entries: &mut [u64],
    cells2: &mut [u64],
    entries2: &mut [u64],
) -> Counted
    ensures { CountedIs start.now (course start.now file.now number incoming.now current.old
        (length cells.old / 7) (length entries.old / 28) (length cells2.old / 7) (length entries2.old / 28))
        cells.old cells.new entries.old entries.new cells2.old cells2.new
        entries2.old entries2.new current.old current.new result }
{
    let Ok(outline) = sheetform::check_sheet(start) else {
        return refused_after(10, 0, false, 0);
    };
    if current.len() != start.len() {
        return refused_after(11, 0, false, 0);
    }
    if !sheet::same_records(start, current, outline.arcs, outline.first_arc) {
        return refused_after(18, 0, false, 0);
    }
    patch_file(
        start, file, number, incoming, current, outline, cells, entries, cells2, entries2,
    )
}

// The same, for a caller who does not ask how many cells were read.
pub fn patch<'a>(
    start: &[u8],
    file: &'a [u8],
    number: usize,
    incoming: &'a [u8],
    current: &mut [u8],
    cells: &mut [u64],
    entries: &mut [u64],
    cells2: &mut [u64],
    entries2: &mut [u64],
) -> Patched
    ensures { PatchIs start.now (course start.now file.now number incoming.now current.old
        (length cells.old / 7) (length entries.old / 28) (length cells2.old / 7) (length entries2.old / 28))
        cells.old cells.new entries.old entries.new cells2.old cells2.new
        entries2.old entries2.new current.old current.new result }
{
    let counted = patch_counted(
        start, file, number, incoming, current, cells, entries, cells2, entries2,
    );
    counted.answer
}

// The two sheets fit: reads the file and looks the cell up.
fn patch_file<'a>(
    start: &'a [u8],
    file: &'a [u8],
    number: usize,
    incoming: &'a [u8],
    current: &mut [u8],
    outline: Outline,
    cells: &mut [u64],
    entries: &mut [u64],
    cells2: &mut [u64],
    entries2: &mut [u64],
) -> Counted
    requires { (check_of start.now ≡ Ok outline) × (length current.old ≡ length start.now)
        × (same_records start.now current.old outline.arcs outline.first_arc ≡ true) }
    ensures { CountedIs start.now (course start.now file.now number incoming.now current.old
        (length cells.old / 7) (length entries.old / 28) (length cells2.old / 7) (length entries2.old / 28))
        cells.old cells.new entries.old entries.new cells2.old cells2.new
        entries2.old entries2.new current.old current.new result }
{
    let read = reader::read_file(file, cells, entries);
    match read.answer {
        Err(refusal) => refused_after(refusal.number, refusal.place, false, 0),
        Ok(counts) => {
            let count = counts.cells;
            if number == 0 {
                return refused_after(17, 0, false, count);
            }
            if number > count {
                return refused_after(17, 0, false, count);
            }
            let plan = Plan {
                instances: outline.instances,
                arcs: outline.arcs,
                first: outline.first_arc,
                slash: read.slash,
            };
            let texts = Texts {
                start,
                file,
                incoming,
            };
            patch_cell(
                texts,
                number - 1,
                current,
                plan,
                read.unit,
                cells,
                count,
                entries,
                cells2,
                entries2,
            )
        }
    }
}

// The file was read, and has that cell: reads the incoming text and swaps the two.
fn patch_cell<'a>(
    texts: Texts<'a>,
    outgoing: usize,
    current: &mut [u8],
    plan: Plan,
    unit: u8,
    cells: &[u64],
    count: usize,
    entries: &[u64],
    cells2: &mut [u64],
    entries2: &mut [u64],
) -> Counted
    requires { (check_of texts.start.now ≡ Good plan.instances plan.arcs plan.first) × (length current.old ≡ length texts.start.now)
        × (7 * count ≤ length cells.now) × (28 * entries_before cells.now count ≤ length entries.now) × (outgoing < count) }
    ensures { let t = texts.entry in CellPatched t.start.now plan.instances plan.arcs plan.first t.file.now t.incoming.now plan.slash unit
        cells.now entries.now count outgoing cells2.old cells2.new entries2.old entries2.new
        current.old current.new result.answer × (result.cells ≡ count)
        × (result.incoming ≡ cells_read (read_cell_of plan.slash unit (length cells2.old / 7) (length entries2.old / 28) t.incoming.now)) }
{
    let start = texts.start;
    let file = texts.file;
    let incoming = texts.incoming;
    let read = onecell::read_cell(incoming, plan.slash, unit, cells2, entries2);
    match read.answer {
        Err(refusal) => refused_after(refusal.number, refusal.place, true, count),
        Ok(counts) => {
            let swap = Swap {
                outgoing,
                cells: count,
                before: count_entries(cells, outgoing),
                leaving: cells[7 * outgoing + 6] as usize,
                coming: cells2[6] as usize,
            };
            let swapped = swap::swap_cell(
                start, file, incoming, plan, swap, cells, entries, cells2, entries2, current,
            );
            Counted {
                answer: swapped,
                cells: count,
                incoming: counts.cells,
            }
        }
    }
}
