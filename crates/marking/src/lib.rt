// Which arcs the entries of a cell mean: each entry finds its arc by search and marks it in a table. There is a byte for each 128 bytes of the
// longest sheet, so that no two arcs share one.
#![tactic(auto)]

ghost use Rattle.std.specs.Prelude.{◌≡◌, ℕ, List, ◌+◌, ◌*◌, ◌/◌, ◌%◌, ◌≤◌, ◌<◌, length, set};
ghost use Rattle.sheetlaws.specs.Sheet.{in_end};
ghost use Rattle.meant.specs.Find.{ArcsGood, ArcSearch, InstanceSearch};
ghost use Rattle.meant.specs.Whom.{InSheet};
ghost use Rattle.meant.specs.WhomType.TheVariants.{One};
ghost use Rattle.marking.specs.Choosing.{marked, Kept, EntryMarked, EntriesMarked};

use grammar::Entry;
use meant::entryarcs::{Plan, Start};
use meant::meaning::Whom;
use meant::sheetrecords::Arc;
use meant::{Asked, entryarcs};

const DEVICE: u8 = 4;

// An arc takes more bytes of a sheet than these.
const SPAN: usize = 128;

// The bytes of the table of marks: one for each span of the longest sheet.
const MARKS: usize = 131072;

// Marks the arc at a place.
fn mark(bits: &mut [u8], arc: usize)
    requires { length bits.old ≡ 131072 }
    ensures { bits.new ≡ set bits.old ((arc / 128) % 131072) 1 }
{
    bits[arc / SPAN % MARKS] = 1;
}

// Whether it is marked.
pub fn is_marked(bits: &[u8], arc: usize) -> bool
    requires { length bits.now ≡ 131072 }
    ensures { result ≡ marked bits.now arc }
{
    bits[arc / SPAN % MARKS] == 1
}

// Marks the arc that an entry other than DEVICE means in the instance at a place.
fn mark_found(
    start: &[u8],
    text: &[u8],
    plan: Plan,
    marks: &[u32; 4096],
    entry: Entry,
    instance: usize,
    bits: &mut [u8],
)
    requires { (ArcSearch start.now plan.arcs plan.first marks.now) × (in_end start.now instance ≤ length start.now)
        × (entry.kind ≡ 4 → ⊥) × (length bits.old ≡ 131072) }
    ensures { (length bits.new ≡ 131072) × (Kept bits.old bits.new)
        × ((type : List ℕ) → EntryMarked start.now text.now plan.slash plan.instances plan.arcs plan.first entry (One instance) type bits.new) }
{
    let start = Start {
        sheet: start,
        plan,
        marks,
    };
    if let Some(arc) = entryarcs::arc_of(start, text, entry, instance) {
        mark(bits, arc);
    }
}

// Marks the arcs that an entry means: each is asked.
fn mark_meant<'a>(asked: Asked<'a>, entry: Entry, bits: &mut [u8])
    requires { (InstanceSearch asked.searched.start.now asked.searched.plan.instances 12 asked.searched.places.now)
        × (ArcsGood asked.searched.start.now asked.searched.plan.arcs asked.searched.plan.first) × (InSheet asked.searched.start.now asked.whom)
        × (length bits.old ≡ 131072) }
    ensures { let a = asked.entry in let s = a.searched in (length bits.new ≡ 131072) × (Kept bits.old bits.new)
        × EntryMarked s.start.now a.text.now s.plan.slash s.plan.instances s.plan.arcs s.plan.first
        entry a.whom a.celltype.now bits.new }
{
    let mut here = asked.searched.plan.first;
    for j in 0..asked.searched.plan.arcs {
        if meant::is_meant(asked, entry, here) {
            mark(bits, here);
        }
        here = Arc {
            sheet: asked.searched.start,
            place: here,
        }
        .next();
    }
}

// Marks the arcs that an entry means, by search where it names one.
fn mark_entry<'a>(asked: Asked<'a>, entry: Entry, bits: &mut [u8])
    requires { (InstanceSearch asked.searched.start.now asked.searched.plan.instances 12 asked.searched.places.now)
        × (ArcSearch asked.searched.start.now asked.searched.plan.arcs asked.searched.plan.first asked.searched.marks.now)
        × (InSheet asked.searched.start.now asked.whom) × (length bits.old ≡ 131072) }
    ensures { let a = asked.entry in let s = a.searched in (length bits.new ≡ 131072) × (Kept bits.old bits.new)
        × EntryMarked s.start.now a.text.now s.plan.slash s.plan.instances s.plan.arcs s.plan.first
        entry a.whom a.celltype.now bits.new }
{
    if entry.kind != DEVICE {
        if let Whom::One(instance) = asked.whom {
            let sheet = asked.searched;
            mark_found(
                sheet.start,
                asked.text,
                sheet.plan,
                sheet.marks,
                entry,
                instance,
                bits,
            );
            return;
        }
    }
    mark_meant(asked, entry, bits);
}

// Marks the arcs that the entries of one cell mean.
pub fn mark_entries<'a>(
    asked: Asked<'a>,
    entries: &[u64],
    first: usize,
    some: usize,
    bits: &mut [u8],
)
    requires { (InstanceSearch asked.searched.start.now asked.searched.plan.instances 12 asked.searched.places.now)
        × (ArcSearch asked.searched.start.now asked.searched.plan.arcs asked.searched.plan.first asked.searched.marks.now)
        × (InSheet asked.searched.start.now asked.whom) × (28 * (first + some) ≤ length entries.now) × (length bits.old ≡ 131072) }
    ensures { let a = asked.entry in let s = a.searched in (length bits.new ≡ 131072) × (Kept bits.old bits.new)
        × EntriesMarked s.start.now a.text.now s.plan.slash s.plan.instances s.plan.arcs s.plan.first
        entries.now first some a.whom a.celltype.now bits.new }
{
    if let Whom::Nobody(number) = asked.whom {
        return;
    }
    for k in 0..some {
        let entry = views::head_at(entries, 28 * (first + k));
        mark_entry(asked, entry, bits);
    }
}
