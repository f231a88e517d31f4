// The entries of a cell, and the cells of a text, applied to a sheet one after the other.
#![tactic(auto)]

ghost use Rattle.std.specs.Prelude.{◌≡◌, ◌+◌, ◌*◌, ◌≤◌, length, get_or};
ghost use Rattle.meaning.specs.Find.{InstanceSearch};
ghost use Rattle.bytype.specs.ByType.{IndexReady};
ghost use Rattle.byend.specs.Ends.{EndsReady};
ghost use Rattle.meaning.specs.Amounts.{refused};
ghost use Rattle.meaning.specs.Ready.{Ready};
ghost use Rattle.meaning.specs.Whom.{InSheet};
ghost use Rattle.meaning.specs.Entries.{refusal_for, applied_for, EntriesRun};
ghost use Rattle.meaning.specs.Cells.{entries_before, CellRun, CellsRun};

use meaning::entryarcs::Change;
use meaning::{Annotated, Whom, amounts};

// What stands below, for the crate above.
pub use starred::Lookup;

const CHECK: u8 = b'T';

// The words of an entry's and of a cell's row.
const ENTRY_WORDS: usize = 28;

const CELL_WORDS: usize = 7;

// What a reading left: the text, its cells and their entries.
#[derive(Clone, Copy)]
pub struct Read<'a> {
    pub text: &'a [u8],
    pub cells: &'a [u64],
    pub entries: &'a [u64],
}

// Applies the entry whose row stands at a place of the table: its refusal, or it is written.
fn apply_entry(
    lookup: Lookup,
    read: Read,
    row: usize,
    whom: Whom,
    celltype: &[u8],
    out: &mut [u8],
) -> Option<u8>
    requires { (Ready lookup.start.sheet.now lookup.start.plan.instances lookup.start.plan.arcs lookup.start.plan.first lookup.start.marks.now out.old)
        × (row + 28 ≤ length read.entries.now)
        × (InSheet lookup.start.sheet.now whom) × (IndexReady lookup.start.sheet.now lookup.start.plan.instances lookup.index.now)
        × EndsReady lookup.start.sheet.now lookup.start.plan.arcs lookup.start.plan.first lookup.ends.now }
    ensures { (result ≡ refused (refusal_for lookup.entry.start.sheet.now read.entry.text.now lookup.entry.start.plan.slash lookup.entry.start.plan.instances
        lookup.entry.start.plan.arcs lookup.entry.start.plan.first read.entry.entries.now row whom celltype.now out.old))
        × (out.new ≡ applied_for lookup.entry.start.sheet.now read.entry.text.now lookup.entry.start.plan.slash lookup.entry.start.plan.instances
        lookup.entry.start.plan.arcs lookup.entry.start.plan.first read.entry.entries.now row whom celltype.now out.old) }
{
    let entry = views::head_at(read.entries, row);
    let rows = amounts::expand(
        read.entries,
        row + 10,
        entry.group == CHECK,
        read.entries[row + 9],
    );
    let change = Change {
        text: read.text,
        head: entry,
        rows,
    };
    match whom {
        Whom::One(instance) => {
            devices::apply_at(lookup.start, change, lookup.ends, out, instance)
        }
        Whom::Every => starred::apply_typed(lookup, change, out, celltype),
        Whom::Nobody(number) => None,
    }
}

// Applies so many entries of one cell, from entry number `first` on.
fn apply_entries(
    lookup: Lookup,
    read: Read,
    first: usize,
    count: usize,
    whom: Whom,
    celltype: &[u8],
    out: &mut [u8],
) -> Annotated
    requires { (Ready lookup.start.sheet.now lookup.start.plan.instances lookup.start.plan.arcs lookup.start.plan.first lookup.start.marks.now out.old)
        × (28 * (first + count) ≤ length read.entries.now) × (InSheet lookup.start.sheet.now whom)
        × (IndexReady lookup.start.sheet.now lookup.start.plan.instances lookup.index.now)
        × EndsReady lookup.start.sheet.now lookup.start.plan.arcs lookup.start.plan.first lookup.ends.now }
    ensures { (length out.new ≡ length out.old)
        × EntriesRun lookup.entry.start.sheet.now read.entry.text.now lookup.entry.start.plan.slash lookup.entry.start.plan.instances
        lookup.entry.start.plan.arcs lookup.entry.start.plan.first read.entry.entries.now first count whom celltype.now out.old out.new result }
{
    for k in 0..count {
        let row = ENTRY_WORDS * (first + k);
        if let Some(number) = apply_entry(lookup, read, row, whom, celltype, out) {
            return Annotated::Refused {
                number,
                place: read.entries[row + 2] as usize,
            };
        }
    }
    Annotated::Done
}

// Applies the cell whose row stands at a place of the table, its entries from entry number `first` on.
fn apply_cell(
    lookup: Lookup,
    read: Read,
    places: &[u32; 4096],
    row: usize,
    first: usize,
    out: &mut [u8],
) -> Annotated
    requires { (Ready lookup.start.sheet.now lookup.start.plan.instances lookup.start.plan.arcs lookup.start.plan.first lookup.start.marks.now out.old)
        × (InstanceSearch lookup.start.sheet.now lookup.start.plan.instances 12 places.now) × (row + 7 ≤ length read.cells.now)
        × (28 * (first + get_or read.cells.now (row + 6) 0) ≤ length read.entries.now)
        × (IndexReady lookup.start.sheet.now lookup.start.plan.instances lookup.index.now)
        × EndsReady lookup.start.sheet.now lookup.start.plan.arcs lookup.start.plan.first lookup.ends.now }
    ensures { (length out.new ≡ length out.old)
        × CellRun lookup.entry.start.sheet.now read.entry.text.now lookup.entry.start.plan.slash lookup.entry.start.plan.instances
        lookup.entry.start.plan.arcs lookup.entry.start.plan.first read.entry.cells.now row read.entry.entries.now first out.old out.new result }
{
    let cell = views::cell_at(read.cells, row);
    let celltype = names::part_of(read.text, cell.typefrom, cell.typeto);
    let start = lookup.start;
    match meaning::whom_of(start.sheet, read.text, start.plan, places, cell) {
        Whom::Nobody(number) => Annotated::Refused {
            number,
            place: cell.place,
        },
        whom => apply_entries(lookup, read, first, cell.entries, whom, celltype, out),
    }
}

// Applies the first `count` cells of the table.
pub fn apply_cells(
    lookup: Lookup,
    read: Read,
    places: &[u32; 4096],
    count: usize,
    out: &mut [u8],
) -> Annotated
    requires { (Ready lookup.start.sheet.now lookup.start.plan.instances lookup.start.plan.arcs lookup.start.plan.first lookup.start.marks.now out.old)
        × (InstanceSearch lookup.start.sheet.now lookup.start.plan.instances 12 places.now) × (7 * count ≤ length read.cells.now)
        × (28 * entries_before read.cells.now count ≤ length read.entries.now)
        × (IndexReady lookup.start.sheet.now lookup.start.plan.instances lookup.index.now)
        × EndsReady lookup.start.sheet.now lookup.start.plan.arcs lookup.start.plan.first lookup.ends.now }
    ensures { (length out.new ≡ length out.old)
        × CellsRun lookup.entry.start.sheet.now read.entry.text.now lookup.entry.start.plan.slash lookup.entry.start.plan.instances
        lookup.entry.start.plan.arcs lookup.entry.start.plan.first read.entry.cells.now count read.entry.entries.now out.old out.new result }
{
    let mut first = 0;
    for k in 0..count {
        let row = CELL_WORDS * k;
        let went = apply_cell(lookup, read, places, row, first, out);
        if let Annotated::Refused { number, place } = went {
            return went;
        }
        first += read.cells[row + 6] as usize;
    }
    Annotated::Done
}
