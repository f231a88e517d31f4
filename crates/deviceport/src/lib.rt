// Which DEVICE entries the index of second ends serves, and the arc at a place of its chains.
#![tactic(auto)]

ghost use Rattle.std.specs.Prelude.{◌≡◌, true, false, ◌≤◌, ◌<◌, length, get_or};
ghost use Rattle.sheetlaws.specs.Sheet.{in_end, place};
ghost use Rattle.entryarcs.specs.Find.{ArcSearch};
ghost use Rattle.deviceport.specs.ByPath.{by_path};

use entryarcs::Start;
use entryarcs::sheetrecords::{Arc, Instance};
use grammar::Entry;

const DEVICE: u8 = 4;

// Where it stands that the table is an index.
const READY: usize = 135167;

// The place of the arc with a number: from the landmark before it.
pub fn arc_place(start: Start, number: usize) -> usize
    requires { (ArcSearch start.sheet.now start.plan.arcs start.plan.first start.marks.now) × (number < start.plan.arcs) }
    ensures { result ≡ place start.entry.sheet.now number start.entry.plan.first }
{
    let stride = start.plan.arcs / 4096 + 1;
    let mark = number / stride;
    let mut here = start.marks[mark] as usize;
    for k in mark * stride..number {
        here = Arc {
            sheet: start.sheet,
            place: here,
        }
        .next();
    }
    here
}

// Whether all the arcs that DEVICE means stand in the bucket of the instance's path.
fn by_path(start: &[u8], text: &[u8], entry: Entry, instance: usize) -> bool
    requires { in_end start.now instance ≤ length start.now }
    ensures { result ≡ by_path start.now text.now entry instance }
{
    if entry.to1 == 0 {
        return true;
    }
    if byend::open_end(Instance {
        sheet: start,
        place: instance,
    }
    .path())
    {
        return byend::plain_port(names::part_of(text, entry.from1, entry.to1));
    }
    false
}

// Whether the entry is a DEVICE whose arcs the index has in one bucket.
pub fn is_chained(
    start: &[u8],
    text: &[u8],
    entry: Entry,
    ends: &[u32; 135168],
    instance: usize,
) -> bool
    requires { in_end start.now instance ≤ length start.now }
    ensures { result ≡ true → (entry.kind ≡ 4) × (get_or ends.now 135167 0 ≡ 1)
        × (by_path start.now text.now entry instance ≡ true) }
{
    entry.kind == DEVICE && ends[READY] == 1 && by_path(start, text, entry, instance)
}
