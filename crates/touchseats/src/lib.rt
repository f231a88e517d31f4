// Which slots of the seated arcs the entries of a cell supply. Where there are many seats, an entry that names one arc finds its seat by search.
#![tactic(auto)]

ghost use Rattle.std.specs.Prelude.{◌≡◌, ◌+◌, ◌*◌, ◌≤◌, length};
ghost use Rattle.sheetlaws.specs.Sheet.{in_end};
ghost use Rattle.meant.specs.Find.{ArcsGood, ArcSearch, InstanceSearch};
ghost use Rattle.views.specs.Views.{head_at};
ghost use Rattle.meant.specs.Whom.{InSheet};
ghost use Rattle.meant.specs.WhomType.TheVariants.{One};
ghost use Rattle.findseat.specs.Findseat.{InOrder};
ghost use Rattle.touchseats.specs.Touchseats.{seat_touched, EntryTouched, SeatsTouched};

use meant::meaning::Whom;
use meant::{Asked, amounts};

const DEVICE: u8 = 4;

const CHECK: u8 = b'T';

// The bytes of a seat's flags.
const FLAGS: usize = 18;

// So many seats are asked one by one.
const FEW: usize = 64;

// Flags the slots of one seat that the entry whose row stands at a place supplies.
fn touch_seat(entries: &[u64], row: usize, flags: &mut [u8], seat: usize)
    requires { (row + 28 ≤ length entries.now) × (18 * seat + 18 ≤ length flags.old) }
    ensures { (length flags.new ≡ length flags.old)
        × (flags.new ≡ seat_touched entries.now row flags.old seat) }
{
    let entry = views::head_at(entries, row);
    let rows = amounts::expand(entries, row + 10, entry.group == CHECK, entries[row + 9]);
    let at = FLAGS * seat;
    touching::touch_rows(rows, &mut flags[at..at + FLAGS]);
}

// Flags those of all seats whose arc it means: each is asked.
fn touch_meant<'a>(asked: Asked<'a>, entries: &[u64], row: usize, arcs: &[usize], flags: &mut [u8])
    requires { (InstanceSearch asked.searched.start.now asked.searched.plan.instances 12 asked.searched.places.now)
        × (ArcsGood asked.searched.start.now asked.searched.plan.arcs asked.searched.plan.first) × (InSheet asked.searched.start.now asked.whom)
        × (InOrder asked.searched.start.now asked.searched.plan.arcs asked.searched.plan.first arcs.now (length arcs.now))
        × (row + 28 ≤ length entries.now) × (18 * length arcs.now ≤ length flags.old) }
    ensures { let a = asked.entry in let s = a.searched in (length flags.new ≡ length flags.old)
        × EntryTouched s.start.now a.text.now s.plan.slash s.plan.instances entries.now row
        a.whom a.celltype.now arcs.now flags.old (length arcs.now) flags.new }
{
    let entry = views::head_at(entries, row);
    for (seat, arc) in arcs.iter().enumerate() {
        if meant::is_meant(asked, entry, *arc) {
            touch_seat(entries, row, flags, seat);
        }
    }
}

// Flags those of the one seat whose arc an entry other than DEVICE means in the instance at a place.
fn touch_found<'a>(
    asked: Asked<'a>,
    entries: &[u64],
    row: usize,
    instance: usize,
    arcs: &[usize],
    flags: &mut [u8],
)
    requires { (InstanceSearch asked.searched.start.now asked.searched.plan.instances 12 asked.searched.places.now)
        × (ArcSearch asked.searched.start.now asked.searched.plan.arcs asked.searched.plan.first asked.searched.marks.now)
        × (in_end asked.searched.start.now instance ≤ length asked.searched.start.now) × (asked.whom ≡ One instance)
        × (InOrder asked.searched.start.now asked.searched.plan.arcs asked.searched.plan.first arcs.now (length arcs.now))
        × (row + 28 ≤ length entries.now) × (18 * length arcs.now ≤ length flags.old) × ((head_at entries.now row).kind ≡ 4 → ⊥) }
    ensures { let a = asked.entry in let s = a.searched in (length flags.new ≡ length flags.old)
        × EntryTouched s.start.now a.text.now s.plan.slash s.plan.instances entries.now row
        a.whom a.celltype.now arcs.now flags.old (length arcs.now) flags.new }
{
    let entry = views::head_at(entries, row);
    let sheet = asked.searched;
    let found = findseat::find_seat(
        sheet.start,
        asked.text,
        sheet.plan,
        sheet.marks,
        entry,
        instance,
        arcs,
    );
    if let Some(one) = found {
        if meant::is_meant(asked, entry, arcs[one]) {
            touch_seat(entries, row, flags, one);
        }
    }
}

// Flags those of all seats whose arc it means, by search where there are many seats and it names one arc.
fn touch_entry<'a>(asked: Asked<'a>, entries: &[u64], row: usize, arcs: &[usize], flags: &mut [u8])
    requires { (InstanceSearch asked.searched.start.now asked.searched.plan.instances 12 asked.searched.places.now)
        × (ArcSearch asked.searched.start.now asked.searched.plan.arcs asked.searched.plan.first asked.searched.marks.now)
        × (InSheet asked.searched.start.now asked.whom)
        × (InOrder asked.searched.start.now asked.searched.plan.arcs asked.searched.plan.first arcs.now (length arcs.now))
        × (row + 28 ≤ length entries.now) × (18 * length arcs.now ≤ length flags.old) }
    ensures { let a = asked.entry in let s = a.searched in (length flags.new ≡ length flags.old)
        × EntryTouched s.start.now a.text.now s.plan.slash s.plan.instances entries.now row
        a.whom a.celltype.now arcs.now flags.old (length arcs.now) flags.new }
{
    if FEW < arcs.len() {
        let entry = views::head_at(entries, row);
        if entry.kind != DEVICE {
            if let Whom::One(instance) = asked.whom {
                touch_found(asked, entries, row, instance, arcs, flags);
                return;
            }
        }
    }
    touch_meant(asked, entries, row, arcs, flags);
}

// Flags the slots of all seats that the entries of one cell supply.
pub fn touch_seats<'a>(
    asked: Asked<'a>,
    entries: &[u64],
    first: usize,
    some: usize,
    arcs: &[usize],
    flags: &mut [u8],
)
    requires { (InstanceSearch asked.searched.start.now asked.searched.plan.instances 12 asked.searched.places.now)
        × (ArcSearch asked.searched.start.now asked.searched.plan.arcs asked.searched.plan.first asked.searched.marks.now)
        × (InSheet asked.searched.start.now asked.whom)
        × (InOrder asked.searched.start.now asked.searched.plan.arcs asked.searched.plan.first arcs.now (length arcs.now))
        × (28 * (first + some) ≤ length entries.now) × (18 * length arcs.now ≤ length flags.old) }
    ensures { let a = asked.entry in let s = a.searched in (length flags.new ≡ length flags.old)
        × SeatsTouched s.start.now a.text.now s.plan.slash s.plan.instances entries.now first
        some a.whom a.celltype.now arcs.now flags.old (length arcs.now) flags.new }
{
    if let Whom::Nobody(number) = asked.whom {
        return;
    }
    for k in 0..some {
        touch_entry(asked, entries, 28 * (first + k), arcs, flags);
    }
}
