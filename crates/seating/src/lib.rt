// The arcs in question seated: marked by both cells, their flags and values laid into the seats, and written back.
#![tactic(auto)]

ghost use Rattle.std.specs.Prelude.{◌≡◌, ◌*◌, ◌≤◌, length};
ghost use Rattle.findseat.specs.Findseat.{InOrder};
ghost use Rattle.nearby.specs.Seats.{There};
ghost use Rattle.seating.specs.Seating.{SwapFits, MarksCover, FlagsSeated, StatesLoaded, backs};

use meant::meaning::Whom;
use meant::sheetrecords::Arc;
use meant::{Asked, Searched};
use swaparcs::Swap;

// The bytes of a seat's flags and of its values.
const FLAGS: usize = 18;

const VALUES: usize = 144;

// One cell of a file swapped for the incoming one: the sheet, the swap's numbers, and of each text its tables, and whom its cell applies to.
#[derive(Clone, Copy)]
pub struct Swapping<'a> {
    pub searched: Searched<'a>,
    pub swap: Swap,
    pub file: &'a [u8],
    pub cells: &'a [u64],
    pub entries: &'a [u64],
    pub leaver: Whom,
    pub leavertype: &'a [u8],
    pub incoming: &'a [u8],
    pub cells2: &'a [u64],
    pub entries2: &'a [u64],
    pub comer: Whom,
    pub comertype: &'a [u8],
}

// Marks the arcs that the outgoing or the incoming cell means.
pub fn mark_both<'a>(swapping: Swapping<'a>, bits: &mut [u8])
    requires { (SwapFits swapping.searched.start.now swapping.searched.plan swapping.swap swapping.searched.places.now swapping.searched.marks.now
        swapping.cells.now swapping.entries.now
        swapping.leaver swapping.cells2.now swapping.entries2.now swapping.comer)
        × (length bits.old ≡ 131072) }
    ensures { let w = swapping.entry in let s = w.searched in (length bits.new ≡ 131072)
        × MarksCover s.start.now s.plan.instances s.plan.arcs s.plan.first w.file.now w.incoming.now
        s.plan.slash w.cells.now w.entries.now w.cells2.now w.entries2.now w.swap w.leaver w.leavertype.now w.comer w.comertype.now bits.new }
{
    let outgoing = Asked {
        searched: swapping.searched,
        text: swapping.file,
        whom: swapping.leaver,
        celltype: swapping.leavertype,
    };
    let leaving = swapping.swap.leaving;
    marking::mark_entries(
        outgoing,
        swapping.entries,
        swapping.swap.before,
        leaving,
        bits,
    );
    let incoming = Asked {
        searched: swapping.searched,
        text: swapping.incoming,
        whom: swapping.comer,
        celltype: swapping.comertype,
    };
    let coming = swapping.swap.coming;
    marking::mark_entries(incoming, swapping.entries2, 0, coming, bits);
}

// Flags the slots of all seats that the outgoing or the incoming cell supplies.
pub fn flag_seats<'a>(swapping: Swapping<'a>, arcs: &[usize], flags: &mut [u8])
    requires { (SwapFits swapping.searched.start.now swapping.searched.plan swapping.swap swapping.searched.places.now swapping.searched.marks.now
        swapping.cells.now swapping.entries.now
        swapping.leaver swapping.cells2.now swapping.entries2.now swapping.comer)
        × (InOrder swapping.searched.start.now swapping.searched.plan.arcs swapping.searched.plan.first arcs.now (length arcs.now))
        × (18 * length arcs.now ≤ length flags.old) }
    ensures { let w = swapping.entry in let s = w.searched in (length flags.new ≡ length flags.old)
        × FlagsSeated s.start.now s.plan.instances s.plan.arcs s.plan.first w.file.now w.incoming.now
        s.plan.slash w.cells.now w.entries.now w.cells2.now w.entries2.now w.swap w.leaver w.leavertype.now w.comer w.comertype.now arcs.now (length arcs.now)
        flags.new }
{
    flags.fill(0);
    let outgoing = Asked {
        searched: swapping.searched,
        text: swapping.file,
        whom: swapping.leaver,
        celltype: swapping.leavertype,
    };
    let swap = swapping.swap;
    touchseats::touch_seats(
        outgoing,
        swapping.entries,
        swap.before,
        swap.leaving,
        arcs,
        flags,
    );
    let incoming = Asked {
        searched: swapping.searched,
        text: swapping.incoming,
        whom: swapping.comer,
        celltype: swapping.comertype,
    };
    touchseats::touch_seats(incoming, swapping.entries2, 0, swap.coming, arcs, flags);
}

// Gives each seat the values of its arc on the starting sheet.
pub fn load_seats(start: &[u8], arcs: &[usize], states: &mut [u8])
    requires { (There start.now arcs.now (length arcs.now)) × (144 * length arcs.now ≤ length states.old) }
    ensures { (length states.new ≡ length states.old) × StatesLoaded start.now arcs.now (length arcs.now) states.new }
{
    for (seat, arc) in arcs.iter().enumerate() {
        let mut state = [0u8; 144];
        let arc = Arc {
            sheet: start,
            place: *arc,
        };
        oneseat::load(start, arc.values(), &mut state);
        oneseat::store(states, VALUES * seat, &state);
    }
}

// Writes the touched values of the seats to the current sheet.
pub fn write_seats(start: &[u8], arcs: &[usize], flags: &[u8], states: &[u8], current: &mut [u8])
    requires { (There start.now arcs.now (length arcs.now)) × (18 * length arcs.now ≤ length flags.now) × (144 * length arcs.now ≤ length states.now)
        × (length current.old ≡ length start.now) }
    ensures { current.new ≡ backs start.now arcs.now flags.now states.now current.old (length arcs.now) }
{
    for (seat, arc) in arcs.iter().enumerate() {
        let mut mask = [0u8; 18];
        oneseat::load(flags, FLAGS * seat, &mut mask);
        let mut state = [0u8; 144];
        oneseat::load(states, VALUES * seat, &mut state);
        let arc = Arc {
            sheet: start,
            place: *arc,
        };
        swaparcs::write_back(current, arc.values(), &state, &mask);
    }
}
