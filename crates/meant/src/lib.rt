// Whether an entry of a text, the old file's or the incoming cell's, means an arc: asked of the arc.
#![tactic(auto)]

ghost use Rattle.std.specs.Prelude.{◌≡◌, ◌≤◌, ◌<◌, length};
ghost use Rattle.sheetlaws.specs.Sheet.{in_end, ar_next};
ghost use Rattle.meaning.specs.Find.{InstanceSearch};
ghost use Rattle.meaning.specs.Whom.{InSheet};
ghost use Rattle.patching.specs.Meant.{meant_in, meant_every};
ghost use Rattle.meant.specs.Only.{path_before, only_path, MeantOn};
ghost use Rattle.meant.specs.Touch.{meant_for};

use grammar::Entry;
use meaning::Whom;
use meaning::entryarcs::Plan;
use meaning::sheet::ArcKey;
use meaning::sheetrecords::{Arc, Instance};

// What stands below, for the crates above.
pub use meaning;
pub use meaning::{amounts, entryarcs, sheet, sheetrecords};

// The starting sheet, and what its records are found by: the plan, a table of its instances and one of its arcs.
#[derive(Clone, Copy)]
pub struct Searched<'a> {
    pub start: &'a [u8],
    pub plan: Plan,
    pub places: &'a [u32; 4096],
    pub marks: &'a [u32; 4096],
}

// A cell whose entries are asked which arcs they mean: the sheet, the cell's text, whom it applies to, and its type there.
#[derive(Clone, Copy)]
pub struct Asked<'a> {
    pub searched: Searched<'a>,
    pub text: &'a [u8],
    pub whom: Whom,
    pub celltype: &'a [u8],
}

const IOPATH: u8 = 1;

const DEVICE: u8 = 4;

const SAME: u8 = 1;

const INSTANCES: usize = 12;

// Whether an entry means the arc at a place, in the instance with a path.
fn meant_on(text: &[u8], slash: bool, entry: Entry, path: &[u8], arc: Arc) -> bool
    ensures { MeantOn arc.entry.sheet.now text.now slash entry path.now arc.entry.place result }
{
    let name = names::part_of(text, entry.from1, entry.to1);
    if entry.kind == DEVICE {
        if arc.kind() != IOPATH {
            return false;
        }
        let end = arc.second_end();
        if entry.to1 == 0 {
            return names::one_below(path, end);
        }
        return names::same_full(end, path, name, slash);
    }
    let key = ArcKey {
        kind: entry.kind,
        edge: entry.edge1,
        edge2: entry.edge2,
        path,
        name,
        name2: names::part_of(text, entry.from2, entry.to2),
        slash,
    };
    sheet::key_vs(arc, key) == SAME
}

// Whether it means that arc, in the instance at another place.
fn meant_in(
    start: &[u8],
    text: &[u8],
    slash: bool,
    entry: Entry,
    instance: usize,
    arc: usize,
) -> bool
    requires { (in_end start.now instance ≤ length start.now) × (ar_next start.now arc ≤ length start.now) }
    ensures { result ≡ meant_in start.now text.now slash entry instance arc }
{
    let path = Instance {
        sheet: start,
        place: instance,
    }
    .path();
    let arc = Arc {
        sheet: start,
        place: arc,
    };
    meant_on(text, slash, entry, path, arc)
}

// An end without a name of so many bytes and the `.` before it; nothing is left of one that is not longer.
fn path_before(end: &[u8], count: usize) -> &[u8]
    ensures { result.now ≡ path_before end.now count }
{
    if count < end.len() {
        let left = end.len() - count - 1;
        return &end[0..left];
    }
    &end[0..0]
}

// The only path that an instance can have in which the entry, whose first name has so many bytes, means the arc: a front part of the arc's end.
fn only_path<'a>(arc: Arc<'a>, entry: Entry, count: usize) -> &'a [u8]
    ensures { result.now ≡ only_path arc.entry.sheet.now entry count arc.entry.place }
{
    if entry.kind != DEVICE {
        return path_before(arc.first_end(), count);
    }
    let end = arc.second_end();
    if entry.to1 == 0 {
        return path_before(end, end.len() - names::last_component(end));
    }
    path_before(end, count)
}

// Whether it means that arc in some instance of a type: only one can have the path.
fn meant_every(
    start: &[u8],
    text: &[u8],
    plan: Plan,
    places: &[u32; 4096],
    entry: Entry,
    celltype: &[u8],
    arc: usize,
) -> bool
    requires { (InstanceSearch start.now plan.instances 12 places.now) × (ar_next start.now arc ≤ length start.now) }
    ensures { result ≡ meant_every start.now text.now plan.slash entry plan.instances
        celltype.now arc }
{
    let written = names::part_of(text, entry.from1, entry.to1);
    let arc = Arc {
        sheet: start,
        place: arc,
    };
    let path = only_path(arc, entry, written.len());
    if !meant_on(text, plan.slash, entry, path, arc) {
        return false;
    }
    let found = sheet::find_instance(start, plan.instances, INSTANCES, places, path, false);
    match found {
        None => false,
        Some(instance) => names::same_text(
            Instance {
                sheet: start,
                place: instance,
            }
            .type_name(),
            celltype,
        ),
    }
}

// Whether it means that arc in one of the instances that its cell applies to.
pub fn is_meant<'a>(asked: Asked<'a>, entry: Entry, arc: usize) -> bool
    requires { (InstanceSearch asked.searched.start.now asked.searched.plan.instances 12 asked.searched.places.now)
        × (ar_next asked.searched.start.now arc ≤ length asked.searched.start.now) × InSheet asked.searched.start.now asked.whom }
    ensures { let a = asked.entry in result ≡ meant_for a.searched.start.now a.text.now a.searched.plan.slash a.searched.plan.instances entry a.whom
        a.celltype.now arc }
{
    let searched = asked.searched;
    match asked.whom {
        Whom::One(instance) => meant_in(
            searched.start,
            asked.text,
            searched.plan.slash,
            entry,
            instance,
            arc,
        ),
        Whom::Every => meant_every(
            searched.start,
            asked.text,
            searched.plan,
            searched.places,
            entry,
            asked.celltype,
            arc,
        ),
        Whom::Nobody(number) => false,
    }
}
