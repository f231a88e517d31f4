// The seat whose arc an entry means: the arc is looked up in the sheet, and its place among the seats, which stand in the sheet's order.
#![tactic(auto)]

ghost use Rattle.std.specs.Prelude.{◌≡◌, false, List, ℕ, ◌≤◌, ◌<◌, eqb, length, IfSome, unwrap_or};
ghost use Rattle.sheetlaws.specs.Sheet.{in_end};
ghost use Rattle.meant.specs.Find.{ArcSearch};
ghost use Rattle.findseat.specs.Findseat.{Ascending, OnlyAt, InOrder, OnlySeat};

use grammar::Entry;
use meant::entryarcs;
use meant::entryarcs::{Plan, Start};

// The seat with an arc's place, by halving.
pub fn seat_at(arcs: &[usize], place: usize) -> Option<usize>
    requires { Ascending arcs.now (length arcs.now) }
    ensures within { IfSome result (λ r. r < length arcs.now) }
    ensures only { OnlyAt arcs.now (length arcs.now) place (unwrap_or result (length arcs.now)) }
{
    arcs.binary_search(&place).ok()
}

// The seat whose arc an entry other than DEVICE means in the instance at a place.
pub fn find_seat(
    start: &[u8],
    text: &[u8],
    plan: Plan,
    marks: &[u32; 4096],
    entry: Entry,
    instance: usize,
    arcs: &[usize],
) -> Option<usize>
    requires { (ArcSearch start.now plan.arcs plan.first marks.now) × (InOrder start.now plan.arcs plan.first arcs.now (length arcs.now))
        × (in_end start.now instance ≤ length start.now) × (eqb entry.kind 4 ≡ false) }
    ensures within { IfSome result (λ r. r < length arcs.now) }
    ensures only { (type : List ℕ) → OnlySeat start.now text.now plan.slash plan.instances
        entry instance type arcs.now (length arcs.now) (unwrap_or result (length arcs.now)) }
{
    let start = Start {
        sheet: start,
        plan,
        marks,
    };
    match entryarcs::arc_of(start, text, entry, instance) {
        Some(arc) => seat_at(arcs, arc),
        None => None,
    }
}
