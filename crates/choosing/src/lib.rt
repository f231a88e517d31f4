// The marked arcs get seats in the sheet's order, up to 4,096 at a time.
#![tactic(auto)]

ghost use Rattle.std.specs.Prelude.{◌≡◌, ◌+◌, ◌≤◌, ◌<◌, length};
ghost use Rattle.sheetlaws.specs.Sheet.{place};
ghost use Rattle.meant.specs.Find.{ArcsGood};
ghost use Rattle.marking.specs.Choosing.{Chose};

use meant::entryarcs::Plan;
use meant::sheetrecords::Arc;

// What was chosen: how many arcs, and the number and the place of the first one behind.
#[derive(Clone, Copy)]
pub struct Chosen {
    pub count: usize,
    pub next: usize,
    pub place: usize,
}

const SEATS: usize = 4096;

// Seats the marked arcs from number `from` on, which stands at `arc`, up to 4,096 of them.
pub fn choose(
    start: &[u8],
    plan: Plan,
    bits: &[u8],
    from: usize,
    arc: usize,
    arcs: &mut [usize],
) -> Chosen
    requires { (ArcsGood start.now plan.arcs plan.first) × (from ≤ plan.arcs) × (arc ≡ place start.now from plan.first)
        × (length bits.now ≡ 131072) × (length arcs.old ≡ 4096) }
    ensures { (length arcs.new ≡ 4096) × Chose start.now plan.arcs plan.first bits.now from result.count result.next
        result.place arcs.new }
{
    let mut count = 0;
    let mut here = arc;
    for next in from..plan.arcs {
        if count == SEATS {
            return Chosen {
                count,
                next,
                place: here,
            };
        }
        if marking::is_marked(bits, here) {
            arcs[count] = here;
            count += 1;
        }
        here = Arc {
            sheet: start,
            place: here,
        }
        .next();
    }
    Chosen {
        count,
        next: plan.arcs,
        place: here,
    }
}
