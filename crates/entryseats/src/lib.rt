// The entries of a cell, run through all seats or through the one that is found.
#![tactic(auto)]

ghost use Rattle.std.specs.Prelude.{◌≡◌, false, ◌+◌, ◌*◌, ◌≤◌, ◌<◌, length, eqb};
ghost use Rattle.sheetlaws.specs.Sheet.{in_end};
ghost use Rattle.meant.specs.Amounts.{lesser};
ghost use Rattle.meant.specs.Find.{InstanceSearch, ArcSearch};
ghost use Rattle.views.specs.Views.{head_at};
ghost use Rattle.meant.specs.Whom.{InSheet};
ghost use Rattle.meant.specs.WhomType.TheVariants.{One};
ghost use Rattle.findseat.specs.Findseat.{InOrder};
ghost use Rattle.nearby.specs.Seats.{There, EntryRun, EntriesSeatsRan};

use arcrun::Least;
use meant::Asked;
use meant::meaning::Whom;

const DEVICE: u8 = 4;

// Where there are more seats than these, an entry's arc is looked up, and not each seat asked.
const FEW: usize = 64;

// The lesser of two refusals, where 0 is none: a seat's refusal is still a number.
fn lesser_of(a: u8, b: u8) -> u8
    ensures { result ≡ lesser a b }
{
    if a == 0 {
        return b;
    }
    if b == 0 {
        return a;
    }
    if a <= b {
        return a;
    }
    b
}

// Takes the values of all seats whose arc the entry means through it, each asked: the least refusal, or 0.
fn run_all<'a>(
    asked: Asked<'a>,
    entries: &[u64],
    row: usize,
    arcs: &[usize],
    flags: &[u8],
    states: &mut [u8],
) -> u8
    requires { (InstanceSearch asked.searched.start.now asked.searched.plan.instances 12 asked.searched.places.now)
        × (There asked.searched.start.now arcs.now (length arcs.now)) × (InSheet asked.searched.start.now asked.whom)
        × (row + 28 ≤ length entries.now) × (18 * length arcs.now ≤ length flags.now) × (144 * length arcs.now ≤ length states.old) }
    ensures { let a = asked.entry in let s = a.searched in (length states.new ≡ length states.old)
        × (EntryRun s.start.now a.text.now s.plan.slash s.plan.instances entries.now
        row a.whom a.celltype.now arcs.now flags.now states.old (length arcs.now) states.new result) }
{
    let entry = views::head_at(entries, row);
    let mut least = 0;
    for (seat, arc) in arcs.iter().enumerate() {
        if meant::is_meant(asked, entry, *arc) {
            let number = oneseat::run_seat(asked, entries, row, *arc, flags, states, seat);
            least = lesser_of(least, number);
        }
    }
    least
}

// Takes the values of the seat whose arc an entry other than DEVICE means in one instance through it, by search: its refusal, or 0.
fn run_found<'a>(
    asked: Asked<'a>,
    entries: &[u64],
    row: usize,
    instance: usize,
    arcs: &[usize],
    flags: &[u8],
    states: &mut [u8],
) -> u8
    requires { (InstanceSearch asked.searched.start.now asked.searched.plan.instances 12 asked.searched.places.now)
        × (ArcSearch asked.searched.start.now asked.searched.plan.arcs asked.searched.plan.first asked.searched.marks.now)
        × (InOrder asked.searched.start.now asked.searched.plan.arcs asked.searched.plan.first arcs.now (length arcs.now))
        × (in_end asked.searched.start.now instance ≤ length asked.searched.start.now) × (asked.whom ≡ One instance)
        × (row + 28 ≤ length entries.now) × (18 * length arcs.now ≤ length flags.now) × (144 * length arcs.now ≤ length states.old)
        × (eqb (head_at entries.now row).kind 4 ≡ false) }
    ensures { let a = asked.entry in let s = a.searched in (length states.new ≡ length states.old)
        × (EntryRun s.start.now a.text.now s.plan.slash s.plan.instances entries.now
        row a.whom a.celltype.now arcs.now flags.now states.old (length arcs.now) states.new result) }
{
    let entry = views::head_at(entries, row);
    let sheet = asked.searched;
    let found = findseat::find_seat(
        sheet.start,
        asked.text,
        sheet.plan,
        sheet.marks,
        entry,
        instance,
        arcs,
    );
    match found {
        Some(seat) => oneseat::run_seat(asked, entries, row, arcs[seat], flags, states, seat),
        None => 0,
    }
}

// Takes the values of all seats whose arc the entry means through it: the least refusal, or 0. Where there are many, the arc is looked up.
fn run_entry<'a>(
    asked: Asked<'a>,
    entries: &[u64],
    row: usize,
    arcs: &[usize],
    flags: &[u8],
    states: &mut [u8],
) -> u8
    requires { (InstanceSearch asked.searched.start.now asked.searched.plan.instances 12 asked.searched.places.now)
        × (ArcSearch asked.searched.start.now asked.searched.plan.arcs asked.searched.plan.first asked.searched.marks.now)
        × (InOrder asked.searched.start.now asked.searched.plan.arcs asked.searched.plan.first arcs.now (length arcs.now))
        × (InSheet asked.searched.start.now asked.whom)
        × (row + 28 ≤ length entries.now) × (18 * length arcs.now ≤ length flags.now) × (144 * length arcs.now ≤ length states.old) }
    ensures { let a = asked.entry in let s = a.searched in (length states.new ≡ length states.old)
        × (EntryRun s.start.now a.text.now s.plan.slash s.plan.instances entries.now
        row a.whom a.celltype.now arcs.now flags.now states.old (length arcs.now) states.new result) }
{
    let entry = views::head_at(entries, row);
    if FEW < arcs.len() && entry.kind != DEVICE {
        if let Whom::One(instance) = asked.whom {
            return run_found(asked, entries, row, instance, arcs, flags, states);
        }
    }
    run_all(asked, entries, row, arcs, flags, states)
}

// Takes them through so many entries of one cell, from entry number `first` on; the first is an event's number.
pub fn run_entries<'a>(
    asked: Asked<'a>,
    side: bool,
    entries: &[u64],
    first: usize,
    some: usize,
    arcs: &[usize],
    flags: &[u8],
    states: &mut [u8],
    event: usize,
) -> Least
    requires { (InstanceSearch asked.searched.start.now asked.searched.plan.instances 12 asked.searched.places.now)
        × (ArcSearch asked.searched.start.now asked.searched.plan.arcs asked.searched.plan.first asked.searched.marks.now)
        × (InOrder asked.searched.start.now asked.searched.plan.arcs asked.searched.plan.first arcs.now (length arcs.now))
        × (InSheet asked.searched.start.now asked.whom)
        × (28 * (first + some) ≤ length entries.now) × (18 * length arcs.now ≤ length flags.now) × (144 * length arcs.now ≤ length states.old)
        × (event + some < 18446744073709551616) }
    ensures { let a = asked.entry in let s = a.searched in (length states.new ≡ length states.old)
        × (EntriesSeatsRan s.start.now a.text.now s.plan.slash s.plan.instances s.plan.arcs
        s.plan.first side entries.now first some a.whom a.celltype.now event arcs.now flags.now
        states.old (length arcs.now) states.new result) }
{
    for k in 0..some {
        let row = 28 * (first + k);
        let entry = views::head_at(entries, row);
        if nearby::is_wanted(asked.searched.start, arcs, entry.kind) {
            let number = run_entry(asked, entries, row, arcs, flags, states);
            if number != 0 {
                return Least::Fault {
                    event: event + k,
                    number,
                    place: entries[row + 2] as usize,
                    incoming: side,
                };
            }
        }
    }
    Least::Nothing
}
