// Swapping one cell of a file that was read: the arcs that it may touch, part by part (document 01, 'Patching'). First decide, then write: all
// are judged before the first value is written.
#![tactic(auto)]

ghost use Rattle.std.specs.Prelude.{◌≡◌, length};
ghost use Rattle.seating.specs.Seating.{SwapFits, MarksCover, SwapSeated};

use arcrun::Least;
use seating::Swapping;

// Judges all arcs, and writes them where there is no fault, so many at a time.
fn swap_chunks<'a>(
    swapping: Swapping<'a>,
    bits: &[u8],
    own: Least,
    flags: &mut [u8],
    states: &mut [u8],
    current: &mut [u8],
) -> Least
    requires { (SwapFits swapping.searched.start.now swapping.searched.plan swapping.swap swapping.searched.places.now swapping.searched.marks.now
        swapping.cells.now swapping.entries.now
        swapping.leaver swapping.cells2.now swapping.entries2.now swapping.comer)
        × (MarksCover swapping.searched.start.now swapping.searched.plan.instances swapping.searched.plan.arcs swapping.searched.plan.first swapping.file.now
        swapping.incoming.now
        swapping.searched.plan.slash swapping.cells.now swapping.entries.now swapping.cells2.now swapping.entries2.now swapping.swap swapping.leaver
        swapping.leavertype.now swapping.comer swapping.comertype.now bits.now)
        × (length bits.now ≡ 131072) × (length flags.old ≡ 73728) × (length states.old ≡ 589824)
        × (length current.old ≡ length swapping.searched.start.now) }
    ensures { let w = swapping.entry in let s = w.searched in SwapSeated s.start.now s.plan.instances s.plan.arcs s.plan.first w.file.now w.incoming.now
        s.plan.slash w.cells.now w.entries.now w.cells2.now w.entries2.now w.swap w.leaver w.leavertype.now w.comer w.comertype.now own current.old current.new
        result }
{
    let best = chunks::judge_chunks(swapping, bits, own, flags, states);
    if !swaparcs::is_fault(best) {
        chunks::write_chunks(swapping, bits, flags, states, current);
    }
    best
}

// Judges the arcs that were marked, and writes them where there is no fault. Most cells touch no more arcs than there are seats, which then go through the new
// file once.
fn swap_marked<'a>(
    swapping: Swapping<'a>,
    bits: &[u8],
    own: Least,
    flags: &mut [u8],
    states: &mut [u8],
    current: &mut [u8],
) -> Least
    requires { (SwapFits swapping.searched.start.now swapping.searched.plan swapping.swap swapping.searched.places.now swapping.searched.marks.now
        swapping.cells.now swapping.entries.now
        swapping.leaver swapping.cells2.now swapping.entries2.now swapping.comer)
        × (MarksCover swapping.searched.start.now swapping.searched.plan.instances swapping.searched.plan.arcs swapping.searched.plan.first swapping.file.now
        swapping.incoming.now
        swapping.searched.plan.slash swapping.cells.now swapping.entries.now swapping.cells2.now swapping.entries2.now swapping.swap swapping.leaver
        swapping.leavertype.now swapping.comer swapping.comertype.now bits.now)
        × (length bits.now ≡ 131072) × (length flags.old ≡ 73728) × (length states.old ≡ 589824)
        × (length current.old ≡ length swapping.searched.start.now) }
    ensures { let w = swapping.entry in let s = w.searched in SwapSeated s.start.now s.plan.instances s.plan.arcs s.plan.first w.file.now w.incoming.now
        s.plan.slash w.cells.now w.entries.now w.cells2.now w.entries2.now w.swap w.leaver w.leavertype.now w.comer w.comertype.now own current.old current.new
        result }
{
    let start = swapping.searched.start;
    let plan = swapping.searched.plan;
    let mut arcs = [0usize; 4096];
    let chosen = choosing::choose(start, plan, bits, 0, plan.first, &mut arcs);
    if chosen.next < plan.arcs {
        return swap_chunks(swapping, bits, own, flags, states, current);
    }
    let seated = &arcs[0..chosen.count];
    let fault = swapchunk::run_chunk(swapping, seated, flags, states);
    let best = swaparcs::better(own, fault);
    if !swaparcs::is_fault(best) {
        seating::write_seats(start, seated, flags, states, current);
    }
    best
}

// Swaps the cell: the least fault of all touched slots and of the incoming cell's own, or, without one, the touched values are written.
pub fn swap_seated<'a>(swapping: Swapping<'a>, own: Least, current: &mut [u8]) -> Least
    requires { (SwapFits swapping.searched.start.now swapping.searched.plan swapping.swap swapping.searched.places.now swapping.searched.marks.now
        swapping.cells.now swapping.entries.now
        swapping.leaver swapping.cells2.now swapping.entries2.now swapping.comer)
        × (length current.old ≡ length swapping.searched.start.now) }
    ensures { let w = swapping.entry in let s = w.searched in SwapSeated s.start.now s.plan.instances s.plan.arcs s.plan.first w.file.now w.incoming.now
        s.plan.slash w.cells.now w.entries.now w.cells2.now w.entries2.now w.swap w.leaver w.leavertype.now w.comer w.comertype.now own current.old current.new
        result }
{
    let mut bits = [0u8; 131072];
    seating::mark_both(swapping, &mut bits);
    let mut flags = [0u8; 73728];
    let mut states = [0u8; 589824];
    swap_marked(swapping, &bits, own, &mut flags, &mut states, current)
}
