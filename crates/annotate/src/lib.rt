// Annotating: a timing sheet is made from a starting sheet and a text (document 01, 'Annotating').
#![tactic(auto)]

ghost use Rattle.std.specs.Prelude.{◌≡◌, ◌+◌, ◌*◌, ◌/◌, ◌≤◌, length};
ghost use Rattle.sheetparts.specs.Form.{Good, check_of};
ghost use Rattle.annotate.specs.Devices.{rows_there, any_device};
ghost use Rattle.meaning.specs.Cells.{entries_before, is_refusal, TextRun};
ghost use Rattle.meaning.specs.Meaning.{course, cell_count, AnnotateIs};

use applycells::{Lookup, Read};
use meaning::entryarcs::{Plan, Start};
use meaning::{Annotated, sheet};

// The answer, and how many cells of the text were read: none of a text that was refused or not reached.
#[derive(Clone, Copy)]
pub struct Counted {
    pub answer: Annotated,
    pub cells: usize,
}

// DEVICE's kind, as it stands in an entry's row.
const DEVICE: u64 = 4;

// The words of an entry's and of a cell's row.
const ENTRY_WORDS: usize = 28;

// Whether there was a refusal, after which the output sheet is to be the starting sheet again.
fn is_refusal(went: Annotated) -> bool
    ensures { result ≡ is_refusal went }
{
    match went {
        Annotated::Done => false,
        Annotated::Refused { number, place } => true,
    }
}

// How many of so many rows of entries are in the table.
#[tactic(auto, unfolding(crate::specs::Devices::rows_there))]
fn rows_there(entries: &[u64], count: usize) -> usize
    ensures { result ≡ rows_there entries.now count }
{
    count.min(entries.len() / ENTRY_WORDS)
}

// Whether one of the first `count` rows is of a DEVICE: the index for it is made only then.
fn any_device(entries: &[u64], count: usize) -> bool
    ensures { result ≡ any_device entries.now (rows_there entries.now count) }
{
    let rows = rows_there(entries, count);
    for k in 0..rows {
        if entries[ENTRY_WORDS * k] == DEVICE {
            return true;
        }
    }
    false
}

// Applies a text that was read, with so many cells and entries, to a starting sheet that was checked. After a refusal the output sheet equals the starting sheet.
fn apply_text(
    start: &[u8],
    plan: Plan,
    read: Read,
    count: usize,
    all: usize,
    out: &mut [u8],
) -> Annotated
    requires { (check_of start.now ≡ Good plan.instances plan.arcs plan.first) × (7 * count ≤ length read.cells.now)
        × (28 * entries_before read.cells.now count ≤ length read.entries.now) × (length out.old ≡ length start.now) }
    ensures { TextRun start.now read.entry.text.now plan.slash plan.instances plan.arcs plan.first read.entry.cells.now count
        read.entry.entries.now out.new result }
{
    let mut places = [0u32; 4096];
    sheet::mark_instances(start, plan.instances, 12, &mut places);
    let mut marks = [0u32; 4096];
    sheet::mark_arcs(start, plan.arcs, plan.first, &mut marks);
    let mut index = [0u32; 135168];
    bytype::index_types(start, plan.instances, &mut index);
    let devices = any_device(read.entries, all);
    let mut ends = [0u32; 135168];
    byend::index_ends(start, plan.arcs, plan.first, devices, &mut ends);
    out.copy_from_slice(start);
    let lookup = Lookup {
        start: Start {
            sheet: start,
            plan,
            marks: &marks,
        },
        index: &index,
        ends: &ends,
    };
    let went = applycells::apply_cells(lookup, read, &places, count, out);
    if is_refusal(went) {
        out.copy_from_slice(start);
    }
    went
}

// A refusal, for which no cell counts.
fn refused(number: u8, place: usize) -> Counted
    ensures { (result.answer ≡ Annotated.Refused number place) × (result.cells ≡ 0) }
{
    Counted {
        answer: Annotated::Refused { number, place },
        cells: 0,
    }
}

// Annotates the starting sheet with a file: the output sheet, which is as long, gets the annotated one, and the tables what was read. Each
// refusal has the paper's number and place; after 1 to 11 the output sheet is as lent, after 12 to 16 it equals the starting sheet.
pub fn annotate_counted(
    start: &[u8],
    text: &[u8],
    cells: &mut [u64],
    entries: &mut [u64],
    out: &mut [u8],
) -> Counted
    ensures { (AnnotateIs start.now (course start.now text.now (length cells.old / 7)
        (length entries.old / 28) (length out.old)) cells.old cells.new entries.old
        entries.new out.old out.new result.answer)
        × (result.cells ≡ cell_count (course start.now text.now (length cells.old / 7)
        (length entries.old / 28) (length out.old))) }
{
    let Ok(outline) = sheetform::check_sheet(start) else {
        return refused(10, 0);
    };
    if out.len() != start.len() {
        return refused(11, 0);
    }
    let read = reader::read_file(text, cells, entries);
    let counts = match read.answer {
        Ok(counts) => counts,
        Err(refusal) => return refused(refusal.number, refusal.place),
    };
    let plan = Plan {
        instances: outline.instances,
        arcs: outline.arcs,
        first: outline.first_arc,
        slash: read.slash,
    };
    let tables = Read {
        text,
        cells,
        entries,
    };
    let answer = apply_text(start, plan, tables, counts.cells, counts.entries, out);
    Counted {
        answer,
        cells: counts.cells,
    }
}

// The same, for a caller who does not ask how many cells were read.
pub fn annotate(
    start: &[u8],
    text: &[u8],
    cells: &mut [u64],
    entries: &mut [u64],
    out: &mut [u8],
) -> Annotated
    ensures { AnnotateIs start.now (course start.now text.now (length cells.old / 7)
        (length entries.old / 28) (length out.old)) cells.old cells.new entries.old
        entries.new out.old out.new result }
{
    let counted = annotate_counted(start, text, cells, entries, out);
    counted.answer
}
