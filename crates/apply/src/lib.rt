// One entry of a text, applied to a sheet: in the instance that its cell names, or in every instance of the cell's type. Everything is looked
// up in the starting sheet; what is judged and written is `out`, a sheet with the same records. Judging reads it and writing changes it, and all is
// judged first, so each is a function.
#![tactic(auto)]

ghost use Rattle.std.specs.Prelude.{◌≡◌, ◌+◌, ◌<◌};
ghost use Rattle.entryarcs.specs.Find.{ArcSearch};
ghost use Rattle.entryarcs.specs.Amounts.{refused};
ghost use Rattle.entryarcs.specs.Bytes.{refusal_in, written_in, refusal_every, written_every, applied_in, applied_every};
ghost use Rattle.entryarcs.specs.Ready.{Ready, InReady};

use entryarcs::sheetrecords::{Arc, Instance};
use entryarcs::{Change, Start, amounts};

const DEVICE: u8 = 4;

// INCREMENT's letter.
const ADDS: u8 = b'I';

// Where the instances start.
const INSTANCES: usize = 12;

const LACKING: u8 = 14;

// What an entry meets in the instance at a place: the least of 14, 15 and 16.
pub fn refusal_in(start: Start, change: Change, out: &[u8], instance: usize) -> Option<u8>
    requires { (InReady start.sheet.now start.plan.arcs start.plan.first out.now instance)
        × (ArcSearch start.sheet.now start.plan.arcs start.plan.first start.marks.now) }
    ensures { result ≡ refused (refusal_in start.entry.sheet.now change.entry.text.now start.entry.plan.slash start.entry.plan.instances start.entry.plan.arcs
        start.entry.plan.first change.entry.head change.entry.rows out.now instance) }
{
    if change.head.kind == DEVICE {
        return entryarcs::device_refusal(start.sheet, start.plan, change, out, instance);
    }
    match entryarcs::arc_of(start, change.text, change.head, instance) {
        Some(arc) => amounts::arc_refusal(
            out,
            Arc {
                sheet: start.sheet,
                place: arc,
            }
            .values(),
            change.rows,
            change.head.group == ADDS,
        ),
        None => Some(LACKING),
    }
}

// Writes what an entry makes of the arcs that it means there.
pub fn write_in(start: Start, change: Change, out: &mut [u8], instance: usize)
    requires { (InReady start.sheet.now start.plan.arcs start.plan.first out.old instance)
        × (ArcSearch start.sheet.now start.plan.arcs start.plan.first start.marks.now) }
    ensures { out.new ≡ written_in start.entry.sheet.now change.entry.text.now start.entry.plan.slash start.entry.plan.instances start.entry.plan.arcs
        start.entry.plan.first change.entry.head change.entry.rows out.old instance }
{
    if change.head.kind == DEVICE {
        entryarcs::device_write(start.sheet, start.plan, change, out, instance);
        return;
    }
    if let Some(arc) = entryarcs::arc_of(start, change.text, change.head, instance) {
        let values = Arc {
            sheet: start.sheet,
            place: arc,
        }
        .values();
        amounts::write_arc(out, values, change.rows, change.head.group == ADDS);
    }
}

// Applies an entry in the instance at a place: its refusal, or it is written. An arc is looked up once.
pub fn apply_in(start: Start, change: Change, out: &mut [u8], instance: usize) -> Option<u8>
    requires { (InReady start.sheet.now start.plan.arcs start.plan.first out.old instance)
        × (ArcSearch start.sheet.now start.plan.arcs start.plan.first start.marks.now) }
    ensures { (result ≡ refused (refusal_in start.entry.sheet.now change.entry.text.now start.entry.plan.slash start.entry.plan.instances start.entry.plan.arcs
        start.entry.plan.first change.entry.head change.entry.rows out.old instance))
        × (out.new ≡ applied_in start.entry.sheet.now change.entry.text.now start.entry.plan.slash start.entry.plan.instances start.entry.plan.arcs
        start.entry.plan.first change.entry.head change.entry.rows out.old instance) }
{
    if change.head.kind == DEVICE {
        let refusal = entryarcs::device_refusal(start.sheet, start.plan, change, out, instance);
        if refusal.is_none() {
            entryarcs::device_write(start.sheet, start.plan, change, out, instance);
        }
        return refusal;
    }
    match entryarcs::arc_of(start, change.text, change.head, instance) {
        Some(arc) => {
            let values = Arc {
                sheet: start.sheet,
                place: arc,
            }
            .values();
            let adds = change.head.group == ADDS;
            let refusal = amounts::arc_refusal(out, values, change.rows, adds);
            if refusal.is_none() {
                amounts::write_arc(out, values, change.rows, adds);
            }
            refusal
        }
        None => Some(LACKING),
    }
}

// What an entry meets in the instances of a type.
pub fn refusal_every(start: Start, change: Change, out: &[u8], celltype: &[u8]) -> Option<u8>
    requires { Ready start.sheet.now start.plan.instances start.plan.arcs start.plan.first start.marks.now out.now }
    ensures { result ≡ refused (refusal_every start.entry.sheet.now change.entry.text.now start.entry.plan.slash start.entry.plan.instances start.entry.plan.arcs
        start.entry.plan.first change.entry.head change.entry.rows out.now celltype.now) }
{
    let mut least = None;
    let mut here = INSTANCES;
    for k in 0..start.plan.instances {
        if entryarcs::is_of(start.sheet, here, celltype) {
            least = amounts::lesser_of(least, refusal_in(start, change, out, here));
        }
        here = Instance {
            sheet: start.sheet,
            place: here,
        }
        .next();
    }
    least
}

// Writes what it makes of the arcs that it means there.
fn write_every(start: Start, change: Change, out: &mut [u8], celltype: &[u8])
    requires { Ready start.sheet.now start.plan.instances start.plan.arcs start.plan.first start.marks.now out.old }
    ensures { out.new ≡ written_every start.entry.sheet.now change.entry.text.now start.entry.plan.slash start.entry.plan.instances start.entry.plan.arcs
        start.entry.plan.first change.entry.head change.entry.rows out.old celltype.now }
{
    let mut here = INSTANCES;
    for k in 0..start.plan.instances {
        if entryarcs::is_of(start.sheet, here, celltype) {
            write_in(start, change, out, here);
        }
        here = Instance {
            sheet: start.sheet,
            place: here,
        }
        .next();
    }
}

// Applies an entry in every instance of a type: its refusal, or it is written.
pub fn apply_every(start: Start, change: Change, out: &mut [u8], celltype: &[u8]) -> Option<u8>
    requires { Ready start.sheet.now start.plan.instances start.plan.arcs start.plan.first start.marks.now out.old }
    ensures { (result ≡ refused (refusal_every start.entry.sheet.now change.entry.text.now start.entry.plan.slash start.entry.plan.instances start.entry.plan.arcs
        start.entry.plan.first change.entry.head change.entry.rows out.old celltype.now))
        × (out.new ≡ applied_every start.entry.sheet.now change.entry.text.now start.entry.plan.slash start.entry.plan.instances start.entry.plan.arcs
        start.entry.plan.first change.entry.head change.entry.rows out.old celltype.now) }
{
    let least = refusal_every(start, change, out, celltype);
    if least.is_none() {
        write_every(start, change, out, celltype);
    }
    least
}
