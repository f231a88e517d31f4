// Swapping one cell of a file that was read for the incoming one (document 01, 'Patching').
//
// First decide, then write: the least fault of the touched slots and of the incoming cell's own is the answer; without one the touched values are written.
#![tactic(auto)]

ghost use Rattle.std.specs.Prelude.{◌≡◌, length};
ghost use Rattle.sheetparts.specs.Form.{Good, check_of};
ghost use Rattle.swaparcs.specs.Loops.{SwapReady};
ghost use Rattle.swap.specs.Swapped.{answer_by, SwapRun};
ghost use Rattle.swap.specs.declared.Patched.TheVariants.{Refused};

use arcrun::Least;
use meant::entryarcs::Plan;
use meant::{Searched, meaning, sheet};
use seating::Swapping;
use swaparcs::Swap;

// The answer: done, or the number of the refusal, its place and whether it is in the incoming text.
#[derive(Clone, Copy)]
pub enum Patched {
    Done,
    Refused {
        number: u8,
        place: usize,
        incoming: bool,
    },
}

// A refusal: its number, its place and whether it is in the incoming text.
pub fn refused(number: u8, place: usize, incoming: bool) -> Patched
    ensures { result ≡ Refused number place incoming }
{
    Patched::Refused {
        number,
        place,
        incoming,
    }
}

// A fault as the answer.
fn answer_of(least: Least) -> Patched
    ensures { result ≡ answer_by least }
{
    match least {
        Least::Nothing => Patched::Done,
        Least::Fault {
            event,
            number,
            place,
            incoming,
        } => refused(number, place, incoming),
    }
}

// Swaps one cell of a file that was read for the incoming one.
pub fn swap_cell<'a>(
    start: &'a [u8],
    file: &'a [u8],
    incoming: &'a [u8],
    plan: Plan,
    swap: Swap,
    cells: &'a [u64],
    entries: &'a [u64],
    cells2: &'a [u64],
    entries2: &'a [u64],
    current: &mut [u8],
) -> Patched
    requires { (check_of start.now ≡ Good plan.instances plan.arcs plan.first)
        × (SwapReady cells.now entries.now cells2.now entries2.now swap) × (length current.old ≡ length start.now) }
    ensures { SwapRun start.now plan.instances plan.arcs plan.first file.now incoming.now plan.slash
        cells.now entries.now cells2.now entries2.now swap current.old current.new result }
{
    let mut places = [0u32; 4096];
    sheet::mark_instances(start, plan.instances, 12, &mut places);
    let mut marks = [0u32; 4096];
    sheet::mark_arcs(start, plan.arcs, plan.first, &mut marks);
    let searched = Searched {
        start,
        plan,
        places: &places,
        marks: &marks,
    };
    let at = swap.outgoing + swap.before;
    let own = ownfaults::own_fault(searched, incoming, cells2, entries2, at);
    let out = views::cell_at(cells, 7 * swap.outgoing);
    let into = views::cell_at(cells2, 0);
    let swapping = Swapping {
        searched,
        swap,
        file,
        cells,
        entries,
        leaver: meaning::whom_of(start, file, plan, &places, out),
        leavertype: names::name_of(file, incoming, false, out.typefrom, out.typeto),
        incoming,
        cells2,
        entries2,
        comer: meaning::whom_of(start, incoming, plan, &places, into),
        comertype: names::name_of(file, incoming, true, into.typefrom, into.typeto),
    };
    answer_of(swapseats::swap_seated(swapping, own, current))
}
