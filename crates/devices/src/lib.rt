// An entry in one instance, where DEVICE finds its arcs by the index of the arcs by their second end.
#![tactic(auto)]

ghost use Rattle.std.specs.Prelude.{◌≡◌, true, false, ◌≤◌, ◌<◌};
ghost use Rattle.entryarcs.specs.Find.{ArcSearch};
ghost use Rattle.entryarcs.specs.Amounts.{refused};
ghost use Rattle.byend.specs.Ends.{EndsIndexed, EndsReady};
ghost use Rattle.entryarcs.specs.Bytes.{device_refusal, device_written, refusal_in, written_in, applied_in};
ghost use Rattle.entryarcs.specs.Ready.{InReady};
ghost use Rattle.deviceport.specs.ByPath.{by_path};

use entryarcs::sheetrecords::{Arc, Instance};
use entryarcs::{Change, Start, amounts};

// INCREMENT's letter.
const ADDS: u8 = b'I';

const LACKING: u8 = 14;

// What DEVICE meets in the instance at a place: 14 if it means no arc there, else the least of 15 and 16.
fn refusal_chained(
    start: Start,
    change: Change,
    ends: &[u32; 135168],
    out: &[u8],
    instance: usize,
) -> Option<u8>
    requires { (InReady start.sheet.now start.plan.arcs start.plan.first out.now instance)
        × (ArcSearch start.sheet.now start.plan.arcs start.plan.first start.marks.now)
        × (start.plan.arcs ≤ 131071) × (EndsIndexed start.sheet.now start.plan.arcs start.plan.first ends.now)
        × (by_path start.sheet.now change.text.now change.head instance ≡ true) }
    ensures { result ≡ refused (device_refusal start.entry.sheet.now change.entry.text.now start.entry.plan.slash start.entry.plan.instances start.entry.plan.arcs
        start.entry.plan.first change.entry.head change.entry.rows out.now instance) }
{
    // An arc may be meant and refuse nothing, so this is not told by `least`.
    let mut some = false;
    let mut least = None;
    let bucket = bytype::bucket_of(Instance {
        sheet: start.sheet,
        place: instance,
    }
    .path());
    let mut k = ends[bucket] as usize;
    // Each turn reads the next one's number, so this is a `while`.
    while k < start.plan.arcs {
        let here = deviceport::arc_place(start, k);
        if entryarcs::device_hit(
            start.sheet,
            change.text,
            start.plan.slash,
            change.head,
            instance,
            here,
        ) {
            let values = Arc {
                sheet: start.sheet,
                place: here,
            }
            .values();
            least = amounts::lesser_of(
                least,
                amounts::arc_refusal(out, values, change.rows, change.head.group == ADDS),
            );
            some = true;
        }
        k = ends[4096 + k] as usize;
    }
    if some { least } else { Some(LACKING) }
}

// Writes what DEVICE makes of the arcs that it means there.
fn write_chained(
    start: Start,
    change: Change,
    ends: &[u32; 135168],
    out: &mut [u8],
    instance: usize,
)
    requires { (InReady start.sheet.now start.plan.arcs start.plan.first out.old instance)
        × (ArcSearch start.sheet.now start.plan.arcs start.plan.first start.marks.now)
        × (start.plan.arcs ≤ 131071) × (EndsIndexed start.sheet.now start.plan.arcs start.plan.first ends.now)
        × (by_path start.sheet.now change.text.now change.head instance ≡ true) }
    ensures { out.new ≡ device_written start.entry.sheet.now change.entry.text.now start.entry.plan.slash start.entry.plan.instances start.entry.plan.arcs
        start.entry.plan.first change.entry.head change.entry.rows out.old instance }
{
    let bucket = bytype::bucket_of(Instance {
        sheet: start.sheet,
        place: instance,
    }
    .path());
    let mut k = ends[bucket] as usize;
    // As above.
    while k < start.plan.arcs {
        let here = deviceport::arc_place(start, k);
        if entryarcs::device_hit(
            start.sheet,
            change.text,
            start.plan.slash,
            change.head,
            instance,
            here,
        ) {
            let values = Arc {
                sheet: start.sheet,
                place: here,
            }
            .values();
            amounts::write_arc(out, values, change.rows, change.head.group == ADDS);
        }
        k = ends[4096 + k] as usize;
    }
}

// What an entry meets in the instance at a place.
pub fn refusal_at(
    start: Start,
    change: Change,
    ends: &[u32; 135168],
    out: &[u8],
    instance: usize,
) -> Option<u8>
    requires { (InReady start.sheet.now start.plan.arcs start.plan.first out.now instance)
        × (ArcSearch start.sheet.now start.plan.arcs start.plan.first start.marks.now)
        × EndsReady start.sheet.now start.plan.arcs start.plan.first ends.now }
    ensures { result ≡ refused (refusal_in start.entry.sheet.now change.entry.text.now start.entry.plan.slash start.entry.plan.instances start.entry.plan.arcs
        start.entry.plan.first change.entry.head change.entry.rows out.now instance) }
{
    if deviceport::is_chained(start.sheet, change.text, change.head, ends, instance) {
        return refusal_chained(start, change, ends, out, instance);
    }
    apply::refusal_in(start, change, out, instance)
}

// Writes what an entry makes of the arcs that it means there.
pub fn write_at(start: Start, change: Change, ends: &[u32; 135168], out: &mut [u8], instance: usize)
    requires { (InReady start.sheet.now start.plan.arcs start.plan.first out.old instance)
        × (ArcSearch start.sheet.now start.plan.arcs start.plan.first start.marks.now)
        × EndsReady start.sheet.now start.plan.arcs start.plan.first ends.now }
    ensures { out.new ≡ written_in start.entry.sheet.now change.entry.text.now start.entry.plan.slash start.entry.plan.instances start.entry.plan.arcs
        start.entry.plan.first change.entry.head change.entry.rows out.old instance }
{
    if deviceport::is_chained(start.sheet, change.text, change.head, ends, instance) {
        write_chained(start, change, ends, out, instance);
        return;
    }
    apply::write_in(start, change, out, instance);
}

// Applies an entry in the instance at a place: its refusal, or it is written.
pub fn apply_at(
    start: Start,
    change: Change,
    ends: &[u32; 135168],
    out: &mut [u8],
    instance: usize,
) -> Option<u8>
    requires { (InReady start.sheet.now start.plan.arcs start.plan.first out.old instance)
        × (ArcSearch start.sheet.now start.plan.arcs start.plan.first start.marks.now)
        × EndsReady start.sheet.now start.plan.arcs start.plan.first ends.now }
    ensures { (result ≡ refused (refusal_in start.entry.sheet.now change.entry.text.now start.entry.plan.slash start.entry.plan.instances start.entry.plan.arcs
        start.entry.plan.first change.entry.head change.entry.rows out.old instance))
        × (out.new ≡ applied_in start.entry.sheet.now change.entry.text.now start.entry.plan.slash start.entry.plan.instances start.entry.plan.arcs
        start.entry.plan.first change.entry.head change.entry.rows out.old instance) }
{
    if deviceport::is_chained(start.sheet, change.text, change.head, ends, instance) {
        let refusal = refusal_chained(start, change, ends, out, instance);
        if refusal.is_none() {
            write_chained(start, change, ends, out, instance);
        }
        return refusal;
    }
    apply::apply_in(start, change, out, instance)
}
