// A part of the arcs that a swap may touch, up to 4,096, each with its seat in tables: their values go through the new file together.
#![tactic(auto)]

ghost use Rattle.std.specs.Prelude.{◌≡◌, ◌*◌, ◌≤◌, length};
ghost use Rattle.meant.specs.Find.{InstanceSearch, ArcSearch};
ghost use Rattle.findseat.specs.Findseat.{InOrder};
ghost use Rattle.nearby.specs.Seats.{Common};
ghost use Rattle.swaparcs.specs.Loops.{SwapReady};
ghost use Rattle.seating.specs.Seating.{SwapFits, FlagsSeated, StatesLoaded, FrontRan, SeatsThrough};

use arcrun::Least;
use seating::Swapping;
use seats::Seated;

// The number of the first cell.
const FIRST: usize = 0;

// Takes the seats on through the incoming cell and those behind it.
fn run_rest<'a>(swapping: Swapping<'a>, seated: Seated<'a>, states: &mut [u8]) -> Least
    requires { (InstanceSearch swapping.searched.start.now swapping.searched.plan.instances 12 swapping.searched.places.now)
        × (ArcSearch swapping.searched.start.now swapping.searched.plan.arcs swapping.searched.plan.first swapping.searched.marks.now)
        × (SwapReady swapping.cells.now swapping.entries.now swapping.cells2.now swapping.entries2.now swapping.swap)
        × (InOrder swapping.searched.start.now swapping.searched.plan.arcs swapping.searched.plan.first seated.arcs.now (length seated.arcs.now))
        × (Common swapping.searched.start.now seated.arcs.now (length seated.arcs.now) seated.common.now)
        × (18 * length seated.arcs.now ≤ length seated.flags.now) × (144 * length seated.arcs.now ≤ length states.old) }
    ensures { let w = swapping.entry in let s = w.searched in let t = seated.entry in (length states.new ≡ length states.old)
        × (FrontRan s.start.now s.plan.instances s.plan.arcs s.plan.first w.file.now w.incoming.now
        s.plan.slash w.cells.now w.entries.now w.cells2.now w.entries2.now w.swap t.arcs.now t.flags.now (length t.arcs.now) states.old
        → SeatsThrough s.start.now s.plan.instances s.plan.arcs s.plan.first w.file.now w.incoming.now
        s.plan.slash w.cells.now w.entries.now w.cells2.now w.entries2.now w.swap t.arcs.now t.flags.now (length t.arcs.now) states.new result) }
{
    let searched = swapping.searched;
    let swap = swapping.swap;
    let event = swap.outgoing + swap.before;
    let text = swapping.incoming;
    let own = seats::run_seats(
        searched,
        text,
        true,
        swapping.cells2,
        0,
        swapping.entries2,
        0,
        seated,
        states,
        event,
    );
    if swaparcs::is_fault(own) {
        return own;
    }
    let next = swap.outgoing + 1;
    let behind = swap.before + swap.leaving;
    let begin = event + 1 + swap.coming;
    let file = swapping.file;
    seats::run_cells(
        searched,
        file,
        swapping.cells,
        next,
        swap.cells,
        swapping.entries,
        behind,
        seated,
        states,
        begin,
    )
}

// Takes the seats through the new file: the cells before the outgoing one, the incoming one, those behind.
fn run_seated<'a>(swapping: Swapping<'a>, seated: Seated<'a>, states: &mut [u8]) -> Least
    requires { (InstanceSearch swapping.searched.start.now swapping.searched.plan.instances 12 swapping.searched.places.now)
        × (ArcSearch swapping.searched.start.now swapping.searched.plan.arcs swapping.searched.plan.first swapping.searched.marks.now)
        × (SwapReady swapping.cells.now swapping.entries.now swapping.cells2.now swapping.entries2.now swapping.swap)
        × (InOrder swapping.searched.start.now swapping.searched.plan.arcs swapping.searched.plan.first seated.arcs.now (length seated.arcs.now))
        × (Common swapping.searched.start.now seated.arcs.now (length seated.arcs.now) seated.common.now)
        × (18 * length seated.arcs.now ≤ length seated.flags.now) × (144 * length seated.arcs.now ≤ length states.old)
        × (StatesLoaded swapping.searched.start.now seated.arcs.now (length seated.arcs.now) states.old) }
    ensures { let w = swapping.entry in let s = w.searched in let t = seated.entry in (length states.new ≡ length states.old)
        × SeatsThrough s.start.now s.plan.instances s.plan.arcs s.plan.first w.file.now w.incoming.now
        s.plan.slash w.cells.now w.entries.now w.cells2.now w.entries2.now w.swap t.arcs.now t.flags.now (length t.arcs.now) states.new result }
{
    let searched = swapping.searched;
    let to = swapping.swap.outgoing;
    let front = seats::run_cells(
        searched,
        swapping.file,
        swapping.cells,
        FIRST,
        to,
        swapping.entries,
        0,
        seated,
        states,
        0,
    );
    if swaparcs::is_fault(front) {
        return front;
    }
    run_rest(swapping, seated, states)
}

// Flags the slots of all seats and takes their values from the starting sheet through the new file.
pub fn run_chunk<'a>(
    swapping: Swapping<'a>,
    arcs: &'a [usize],
    flags: &'a mut [u8],
    states: &mut [u8],
) -> Least
    requires { (SwapFits swapping.searched.start.now swapping.searched.plan swapping.swap swapping.searched.places.now swapping.searched.marks.now
        swapping.cells.now swapping.entries.now
        swapping.leaver swapping.cells2.now swapping.entries2.now swapping.comer)
        × (InOrder swapping.searched.start.now swapping.searched.plan.arcs swapping.searched.plan.first arcs.now (length arcs.now))
        × (18 * length arcs.now ≤ length flags.old) × (144 * length arcs.now ≤ length states.old) }
    ensures { let w = swapping.entry in let s = w.searched in (length flags.new ≡ length flags.old) × (length states.new ≡ length states.old)
        × (FlagsSeated s.start.now s.plan.instances s.plan.arcs s.plan.first w.file.now w.incoming.now
        s.plan.slash w.cells.now w.entries.now w.cells2.now w.entries2.now w.swap w.leaver w.leavertype.now w.comer w.comertype.now arcs.now (length arcs.now)
        flags.new)
        × (SeatsThrough s.start.now s.plan.instances s.plan.arcs s.plan.first w.file.now w.incoming.now
        s.plan.slash w.cells.now w.entries.now w.cells2.now w.entries2.now w.swap arcs.now flags.new (length arcs.now) states.new result) }
{
    let start = swapping.searched.start;
    seating::flag_seats(swapping, arcs, flags);
    seating::load_seats(start, arcs, states);
    let seated = Seated {
        arcs,
        common: nearby::common_front(start, arcs),
        flags,
    };
    run_seated(swapping, seated, states)
}
