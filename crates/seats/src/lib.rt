// The arcs with a touched slot, seated in tables of their own, run through the cells of a file together: each cell is looked at once for all of
// them, and one that can touch none is passed by.
#![tactic(auto)]

ghost use Rattle.std.specs.Prelude.{◌≡◌, false, ◌+◌, ◌*◌, ◌≤◌, ◌<◌, length, get_or};
ghost use Rattle.meant.specs.Find.{InstanceSearch, ArcSearch};
ghost use Rattle.meant.specs.Cells.{entries_before};
ghost use Rattle.findseat.specs.Findseat.{InOrder};
ghost use Rattle.nearby.specs.Seats.{Common, SeatsRan, CellsSeatsRan};

use arcrun::Least;
use meant::{Asked, Searched, meaning};

// The seated arcs: their places, the name that their ends have in common, and the flags of their slots.
#[derive(Clone, Copy)]
pub struct Seated<'a> {
    pub arcs: &'a [usize],
    pub common: &'a [u8],
    pub flags: &'a [u8],
}

// Takes the values of all seats through a cell, whose keyword is an event's number: the least fault of them all.
pub fn run_seats<'a>(
    searched: Searched<'a>,
    text: &'a [u8],
    side: bool,
    cells: &[u64],
    row: usize,
    entries: &[u64],
    first: usize,
    seated: Seated<'a>,
    states: &mut [u8],
    event: usize,
) -> Least
    requires { (InstanceSearch searched.start.now searched.plan.instances 12 searched.places.now)
        × (ArcSearch searched.start.now searched.plan.arcs searched.plan.first searched.marks.now)
        × (InOrder searched.start.now searched.plan.arcs searched.plan.first seated.arcs.now (length seated.arcs.now))
        × (Common searched.start.now seated.arcs.now (length seated.arcs.now) seated.common.now)
        × (18 * length seated.arcs.now ≤ length seated.flags.now) × (144 * length seated.arcs.now ≤ length states.old)
        × (row + 7 ≤ length cells.now) × (28 * (first + get_or cells.now (row + 6) 0) ≤ length entries.now)
        × (event + 1 + get_or cells.now (row + 6) 0 < 18446744073709551616) }
    ensures { let s = searched.entry in let t = seated.entry in (length states.new ≡ length states.old)
        × (SeatsRan s.start.now text.now s.plan.slash s.plan.instances s.plan.arcs
        s.plan.first side cells.now row entries.now first event t.arcs.now t.flags.now states.old
        (length t.arcs.now) states.new result) }
{
    let start = searched.start;
    let plan = searched.plan;
    let cell = views::cell_at(cells, row);
    if nearby::is_far(text, plan.slash, cell, seated.common) {
        return Least::Nothing;
    }
    if !nearby::is_near(start, text, plan.slash, cell, seated.arcs) {
        return Least::Nothing;
    }
    let asked = Asked {
        searched,
        text,
        whom: meaning::whom_of(start, text, plan, searched.places, cell),
        celltype: names::part_of(text, cell.typefrom, cell.typeto),
    };
    entryseats::run_entries(
        asked,
        side,
        entries,
        first,
        cell.entries,
        seated.arcs,
        seated.flags,
        states,
        event + 1,
    )
}

// Takes them through the file's cells number `from` up to `to`, from 0 on; `before` entries stand before them, and their events start at `begin`.
pub fn run_cells<'a>(
    searched: Searched<'a>,
    file: &'a [u8],
    cells: &[u64],
    from: usize,
    to: usize,
    entries: &[u64],
    before: usize,
    seated: Seated<'a>,
    states: &mut [u8],
    begin: usize,
) -> Least
    requires { (InstanceSearch searched.start.now searched.plan.instances 12 searched.places.now)
        × (ArcSearch searched.start.now searched.plan.arcs searched.plan.first searched.marks.now)
        × (InOrder searched.start.now searched.plan.arcs searched.plan.first seated.arcs.now (length seated.arcs.now))
        × (Common searched.start.now seated.arcs.now (length seated.arcs.now) seated.common.now)
        × (18 * length seated.arcs.now ≤ length seated.flags.now) × (144 * length seated.arcs.now ≤ length states.old)
        × (7 * to ≤ length cells.now) × (before ≡ entries_before cells.now from) × (28 * entries_before cells.now to ≤ length entries.now)
        × (begin + (to + entries_before cells.now to) < 18446744073709551616) }
    ensures { let s = searched.entry in let t = seated.entry in (length states.new ≡ length states.old)
        × (CellsSeatsRan s.start.now file.now s.plan.slash s.plan.instances s.plan.arcs s.plan.first cells.now from to
        entries.now begin t.arcs.now t.flags.now states.old (length t.arcs.now) states.new result) }
{
    let mut first = before;
    let mut event = begin;
    for k in from..to {
        let row = 7 * k;
        let least = run_seats(
            searched, file, false, cells, row, entries, first, seated, states, event,
        );
        if let Least::Fault {
            event: e,
            number,
            place,
            incoming,
        } = least
        {
            return least;
        }
        let some = cells[row + 6] as usize;
        first += some;
        event += 1 + some;
    }
    Least::Nothing
}
