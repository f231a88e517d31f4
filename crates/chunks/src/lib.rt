// The arcs in question part by part: first judged, then written.
#![tactic(auto)]

ghost use Rattle.std.specs.Prelude.{◌≡◌, length};
ghost use Rattle.swaparcs.specs.Loops.{ArcsRan, ArcsWritten};
ghost use Rattle.seating.specs.Seating.{SwapFits, MarksCover};

use arcrun::Least;
use seating::Swapping;

// The least fault of all arcs and of the incoming cell's own, so many arcs at a time.
pub fn judge_chunks<'a>(
    swapping: Swapping<'a>,
    bits: &[u8],
    own: Least,
    flags: &mut [u8],
    states: &mut [u8],
) -> Least
    requires { (SwapFits swapping.searched.start.now swapping.searched.plan swapping.swap swapping.searched.places.now swapping.searched.marks.now
        swapping.cells.now swapping.entries.now
        swapping.leaver swapping.cells2.now swapping.entries2.now swapping.comer)
        × (MarksCover swapping.searched.start.now swapping.searched.plan.instances swapping.searched.plan.arcs swapping.searched.plan.first swapping.file.now
        swapping.incoming.now
        swapping.searched.plan.slash swapping.cells.now swapping.entries.now swapping.cells2.now swapping.entries2.now swapping.swap swapping.leaver
        swapping.leavertype.now swapping.comer swapping.comertype.now bits.now)
        × (length bits.now ≡ 131072) × (length flags.old ≡ 73728) × (length states.old ≡ 589824) }
    ensures { let w = swapping.entry in let s = w.searched in (length flags.new ≡ 73728) × (length states.new ≡ 589824)
        × (ArcsRan s.start.now s.plan.instances s.plan.arcs s.plan.first w.file.now w.incoming.now
        s.plan.slash w.cells.now w.entries.now w.cells2.now w.entries2.now w.swap w.leaver w.leavertype.now w.comer w.comertype.now own result) }
{
    let start = swapping.searched.start;
    let plan = swapping.searched.plan;
    let mut best = own;
    let mut j = 0;
    let mut arc = plan.first;
    // No `for`: each turn goes on by as many arcs as it took.
    while j < plan.arcs {
        let mut arcs = [0usize; 4096];
        let chosen = choosing::choose(start, plan, bits, j, arc, &mut arcs);
        let fault = swapchunk::run_chunk(swapping, &arcs[0..chosen.count], flags, states);
        best = swaparcs::better(best, fault);
        j = chosen.next;
        arc = chosen.place;
    }
    best
}

// Writes the touched values of all arcs, so many at a time.
pub fn write_chunks<'a>(
    swapping: Swapping<'a>,
    bits: &[u8],
    flags: &mut [u8],
    states: &mut [u8],
    current: &mut [u8],
)
    requires { (SwapFits swapping.searched.start.now swapping.searched.plan swapping.swap swapping.searched.places.now swapping.searched.marks.now
        swapping.cells.now swapping.entries.now
        swapping.leaver swapping.cells2.now swapping.entries2.now swapping.comer)
        × (MarksCover swapping.searched.start.now swapping.searched.plan.instances swapping.searched.plan.arcs swapping.searched.plan.first swapping.file.now
        swapping.incoming.now
        swapping.searched.plan.slash swapping.cells.now swapping.entries.now swapping.cells2.now swapping.entries2.now swapping.swap swapping.leaver
        swapping.leavertype.now swapping.comer swapping.comertype.now bits.now)
        × (length bits.now ≡ 131072) × (length flags.old ≡ 73728) × (length states.old ≡ 589824)
        × (length current.old ≡ length swapping.searched.start.now) }
    ensures { let w = swapping.entry in let s = w.searched in ArcsWritten s.start.now s.plan.instances s.plan.arcs s.plan.first w.file.now w.incoming.now
        s.plan.slash w.cells.now w.entries.now w.cells2.now w.entries2.now w.swap w.leaver w.leavertype.now w.comer w.comertype.now current.old current.new }
{
    let start = swapping.searched.start;
    let plan = swapping.searched.plan;
    let mut j = 0;
    let mut arc = plan.first;
    // No `for`: each turn goes on by as many arcs as it took.
    while j < plan.arcs {
        let mut arcs = [0usize; 4096];
        let chosen = choosing::choose(start, plan, bits, j, arc, &mut arcs);
        let seated = &arcs[0..chosen.count];
        swapchunk::run_chunk(swapping, seated, flags, states);
        seating::write_seats(start, seated, flags, states, current);
        j = chosen.next;
        arc = chosen.place;
    }
}
