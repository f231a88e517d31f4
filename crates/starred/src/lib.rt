// An entry of a `*` cell: applied in every instance of the cell's type, by the index of the instances by type.
#![tactic(auto)]

ghost use Rattle.std.specs.Prelude.{◌≡◌, ◌≤◌};
ghost use Rattle.bytype.specs.ByType.{Indexed, IndexReady};
ghost use Rattle.byend.specs.Ends.{EndsReady};
ghost use Rattle.entryarcs.specs.Amounts.{refused};
ghost use Rattle.entryarcs.specs.Bytes.{refusal_every, written_every, applied_every};
ghost use Rattle.entryarcs.specs.Ready.{Ready};

use entryarcs::{Change, Start, amounts};

// How many instances the index has room for.
const MOST: usize = 65536;

// A start with its indexes: of the instances by their type, and of the arcs by their second end.
#[derive(Clone, Copy)]
pub struct Lookup<'a> {
    pub start: Start<'a>,
    pub index: &'a [u32; 135168],
    pub ends: &'a [u32; 135168],
}

// What an entry meets in the instances of a type.
fn refusal_chained(lookup: Lookup, change: Change, out: &[u8], celltype: &[u8]) -> Option<u8>
    requires { (Ready lookup.start.sheet.now lookup.start.plan.instances lookup.start.plan.arcs lookup.start.plan.first lookup.start.marks.now out.now)
        × (lookup.start.plan.instances ≤ 65536) × (Indexed lookup.start.sheet.now lookup.start.plan.instances lookup.index.now)
        × EndsReady lookup.start.sheet.now lookup.start.plan.arcs lookup.start.plan.first lookup.ends.now }
    ensures { result ≡ refused (refusal_every lookup.entry.start.sheet.now change.entry.text.now lookup.entry.start.plan.slash lookup.entry.start.plan.instances
        lookup.entry.start.plan.arcs lookup.entry.start.plan.first change.entry.head change.entry.rows out.now celltype.now) }
{
    let start = lookup.start;
    let mut least = None;
    let bucket = bytype::bucket_of(celltype);
    let mut k = lookup.index[bucket] as usize;
    // Each turn reads the next one's number, so this is a `while`.
    while k < start.plan.instances {
        let here = lookup.index[4097 + 2 * k] as usize;
        if entryarcs::is_of(start.sheet, here, celltype) {
            let refusal = devices::refusal_at(start, change, lookup.ends, out, here);
            least = amounts::lesser_of(least, refusal);
        }
        k = lookup.index[4096 + 2 * k] as usize;
    }
    least
}

// Writes what it makes of the arcs that it means there.
fn write_chained(lookup: Lookup, change: Change, out: &mut [u8], celltype: &[u8])
    requires { (Ready lookup.start.sheet.now lookup.start.plan.instances lookup.start.plan.arcs lookup.start.plan.first lookup.start.marks.now out.old)
        × (lookup.start.plan.instances ≤ 65536) × (Indexed lookup.start.sheet.now lookup.start.plan.instances lookup.index.now)
        × EndsReady lookup.start.sheet.now lookup.start.plan.arcs lookup.start.plan.first lookup.ends.now }
    ensures { out.new ≡ written_every lookup.entry.start.sheet.now change.entry.text.now lookup.entry.start.plan.slash lookup.entry.start.plan.instances
        lookup.entry.start.plan.arcs lookup.entry.start.plan.first change.entry.head change.entry.rows out.old celltype.now }
{
    let start = lookup.start;
    let bucket = bytype::bucket_of(celltype);
    let mut k = lookup.index[bucket] as usize;
    // As above.
    while k < start.plan.instances {
        let here = lookup.index[4097 + 2 * k] as usize;
        if entryarcs::is_of(start.sheet, here, celltype) {
            devices::write_at(start, change, lookup.ends, out, here);
        }
        k = lookup.index[4096 + 2 * k] as usize;
    }
}

// Applies an entry in every instance of a type: its refusal, or it is written. Where there are more instances than the index has room
// for, they are gone through one by one.
pub fn apply_typed(lookup: Lookup, change: Change, out: &mut [u8], celltype: &[u8]) -> Option<u8>
    requires { (Ready lookup.start.sheet.now lookup.start.plan.instances lookup.start.plan.arcs lookup.start.plan.first lookup.start.marks.now out.old)
        × (IndexReady lookup.start.sheet.now lookup.start.plan.instances lookup.index.now)
        × EndsReady lookup.start.sheet.now lookup.start.plan.arcs lookup.start.plan.first lookup.ends.now }
    ensures { (result ≡ refused (refusal_every lookup.entry.start.sheet.now change.entry.text.now lookup.entry.start.plan.slash lookup.entry.start.plan.instances
        lookup.entry.start.plan.arcs lookup.entry.start.plan.first change.entry.head change.entry.rows out.old celltype.now))
        × (out.new ≡ applied_every lookup.entry.start.sheet.now change.entry.text.now lookup.entry.start.plan.slash lookup.entry.start.plan.instances
        lookup.entry.start.plan.arcs lookup.entry.start.plan.first change.entry.head change.entry.rows out.old celltype.now) }
{
    if MOST < lookup.start.plan.instances {
        return apply::apply_every(lookup.start, change, out, celltype);
    }
    let least = refusal_chained(lookup, change, out, celltype);
    if least.is_none() {
        write_chained(lookup, change, out, celltype);
    }
    least
}
