// Which arcs an entry means on a sheet: the arc of its names, the arcs of a DEVICE, the instances of a type.
#![tactic(auto)]

ghost use Rattle.std.specs.Prelude.{◌≡◌, true, false, ◌+◌, ◌≤◌, ◌<◌, length};
ghost use Rattle.names.specs.Order.{same_text};
ghost use Rattle.sheetparts.specs.Form.{type_at};
ghost use Rattle.sheetlaws.specs.Sheet.{in_end, ar_next};
ghost use Rattle.applying.specs.Find.{ArcSearch};
ghost use Rattle.applying.specs.Amounts.{refused};
ghost use Rattle.applying.specs.Bytes.{device_hit, arc_of, device_refusal, device_written};
ghost use Rattle.applying.specs.Ready.{InReady};

use applying::sheet::ArcKey;
use grammar::Entry;
use sheetrecords::{Arc, Instance};

// What stands below, for the crates above.
pub use applying::{amounts, sheet};
pub use sheetrecords;

const IOPATH: u8 = 1;

const DEVICE: u8 = 4;

// INCREMENT's letter.
const ADDS: u8 = b'I';

const LACKING: u8 = 14;

// What a check found on the starting sheet, and the text's divider: how many instances, how many arcs and where the first one stands.
#[derive(Clone, Copy)]
pub struct Plan {
    pub instances: usize,
    pub arcs: usize,
    pub first: usize,
    pub slash: bool,
}

// What the arcs of entries are looked up in: the starting sheet, what its check found, and the landmarks of its arcs.
#[derive(Clone, Copy)]
pub struct Start<'a> {
    pub sheet: &'a [u8],
    pub plan: Plan,
    pub marks: &'a [u32; 4096],
}

// An entry of a text, and the expanded list of what it supplies.
#[derive(Clone, Copy)]
pub struct Change<'a> {
    pub text: &'a [u8],
    pub head: Entry,
    pub rows: [[u64; 3]; 6],
}

// Whether DEVICE means the arc at a place, in the instance at another.
pub fn device_hit(
    start: &[u8],
    text: &[u8],
    slash: bool,
    entry: Entry,
    instance: usize,
    arc: usize,
) -> bool
    requires { (in_end start.now instance ≤ length start.now) × (ar_next start.now arc ≤ length start.now) }
    ensures { result ≡ device_hit start.now text.now slash entry instance arc }
{
    let arc = Arc {
        sheet: start,
        place: arc,
    };
    if arc.kind() != IOPATH {
        return false;
    }
    let end = arc.second_end();
    let path = Instance {
        sheet: start,
        place: instance,
    }
    .path();
    if entry.to1 == 0 {
        return names::one_below(path, end);
    }
    let port = names::part_of(text, entry.from1, entry.to1);
    names::same_full(end, path, port, slash)
}

// What DEVICE meets in the instance at a place: 14 if it means no arc there, else the least of 15 and 16.
pub fn device_refusal(
    start: &[u8],
    plan: Plan,
    change: Change,
    out: &[u8],
    instance: usize,
) -> Option<u8>
    requires { InReady start.now plan.arcs plan.first out.now instance }
    ensures { result ≡ refused (device_refusal start.now change.entry.text.now plan.slash plan.instances plan.arcs plan.first
        change.entry.head change.entry.rows out.now instance) }
{
    // An arc may be meant and refuse nothing, so this is not told by `least`.
    let mut some = false;
    let mut least = None;
    let mut here = plan.first;
    for k in 0..plan.arcs {
        if device_hit(start, change.text, plan.slash, change.head, instance, here) {
            let values = Arc {
                sheet: start,
                place: here,
            }
            .values();
            least = amounts::lesser_of(
                least,
                amounts::arc_refusal(out, values, change.rows, change.head.group == ADDS),
            );
            some = true;
        }
        here = Arc {
            sheet: start,
            place: here,
        }
        .next();
    }
    if some { least } else { Some(LACKING) }
}

// Writes what DEVICE makes of the arcs that it means there.
pub fn device_write(start: &[u8], plan: Plan, change: Change, out: &mut [u8], instance: usize)
    requires { InReady start.now plan.arcs plan.first out.old instance }
    ensures { out.new ≡ device_written start.now change.entry.text.now plan.slash plan.instances plan.arcs plan.first
        change.entry.head change.entry.rows out.old instance }
{
    let mut here = plan.first;
    for k in 0..plan.arcs {
        if device_hit(start, change.text, plan.slash, change.head, instance, here) {
            let values = Arc {
                sheet: start,
                place: here,
            }
            .values();
            amounts::write_arc(out, values, change.rows, change.head.group == ADDS);
        }
        here = Arc {
            sheet: start,
            place: here,
        }
        .next();
    }
}

// The arc that an entry other than DEVICE means in the instance at a place.
pub fn arc_of(start: Start, text: &[u8], entry: Entry, instance: usize) -> Option<usize>
    requires { (ArcSearch start.sheet.now start.plan.arcs start.plan.first start.marks.now) × (in_end start.sheet.now instance ≤ length start.sheet.now) }
    ensures { result ≡ arc_of start.entry.sheet.now text.now start.entry.plan.slash start.entry.plan.arcs start.entry.plan.first entry instance }
{
    let key = ArcKey {
        kind: entry.kind,
        edge: entry.edge1,
        edge2: entry.edge2,
        path: Instance {
            sheet: start.sheet,
            place: instance,
        }
        .path(),
        name: names::part_of(text, entry.from1, entry.to1),
        name2: names::part_of(text, entry.from2, entry.to2),
        slash: start.plan.slash,
    };
    sheet::find_arc(
        start.sheet,
        start.plan.arcs,
        start.plan.first,
        start.marks,
        key,
    )
}

// Whether the instance at a place is of a type.
pub fn is_of(start: &[u8], instance: usize, celltype: &[u8]) -> bool
    requires { in_end start.now instance ≤ length start.now }
    ensures { result ≡ same_text (type_at start.now instance) celltype.now }
{
    let own = Instance {
        sheet: start,
        place: instance,
    }
    .type_name();
    names::same_text(own, celltype)
}
