// What the records alone refuse of a cell that comes into a file: 12 and 13 at its keyword, 14 at an entry (document 01, 'Patching').
#![tactic(auto)]

ghost use Rattle.std.specs.Prelude.{◌≡◌, ◌+◌, ◌*◌, ◌≤◌, ◌<◌, length, get_or};
ghost use Rattle.meant.specs.Find.{InsGood, InstanceSearch, ArcSearch};
ghost use Rattle.meant.specs.Amounts.{refused};
ghost use Rattle.meant.specs.Whom.{InSheet};
ghost use Rattle.meant.specs.Entries.{refusal_for};
ghost use Rattle.ownfaults.specs.Own.{OwnEntries, OwnIs};

use arcrun::Least;
use meant::entryarcs::{Change, Start};
use meant::meaning::Whom;
use meant::{Asked, Searched, amounts, meaning};

const CHECK: u8 = b'T';

const LACKING: u8 = 14;

// What the entry whose row stands at a place meets on the starting sheet: the least of 14, 15 and 16.
fn own_refusal<'a>(asked: Asked<'a>, entries: &[u64], row: usize) -> Option<u8>
    requires { (InsGood asked.searched.start.now asked.searched.plan.instances 12)
        × (ArcSearch asked.searched.start.now asked.searched.plan.arcs asked.searched.plan.first asked.searched.marks.now)
        × (InSheet asked.searched.start.now asked.whom) × (row + 28 ≤ length entries.now) }
    ensures { let a = asked.entry in let s = a.searched in result ≡ refused (refusal_for s.start.now a.text.now s.plan.slash s.plan.instances
        s.plan.arcs s.plan.first entries.now row a.whom a.celltype.now s.start.now) }
{
    let start = asked.searched.start;
    let entry = views::head_at(entries, row);
    let rows = amounts::expand(entries, row + 10, entry.group == CHECK, entries[row + 9]);
    let change = Change {
        text: asked.text,
        head: entry,
        rows,
    };
    let lookup = Start {
        sheet: start,
        plan: asked.searched.plan,
        marks: asked.searched.marks,
    };
    match asked.whom {
        Whom::One(instance) => apply::refusal_in(lookup, change, start, instance),
        Whom::Every => apply::refusal_every(lookup, change, start, asked.celltype),
        Whom::Nobody(number) => None,
    }
}

// The first entry of the incoming cell that lacks an arc in an instance: 14. The first one is an event's number.
fn own_entries<'a>(asked: Asked<'a>, entries: &[u64], count: usize, event: usize) -> Least
    requires { (InsGood asked.searched.start.now asked.searched.plan.instances 12)
        × (ArcSearch asked.searched.start.now asked.searched.plan.arcs asked.searched.plan.first asked.searched.marks.now)
        × (InSheet asked.searched.start.now asked.whom) × (28 * count ≤ length entries.now) × (event + count < 18446744073709551616) }
    ensures { let a = asked.entry in let s = a.searched in OwnEntries s.start.now s.plan.instances s.plan.arcs s.plan.first a.text.now s.plan.slash entries.now
        count a.whom a.celltype.now event result }
{
    for k in 0..count {
        let row = 28 * k;
        if own_refusal(asked, entries, row).unwrap_or(0) == LACKING {
            return Least::Fault {
                event: event + k,
                number: LACKING,
                place: entries[row + 2] as usize,
                incoming: true,
            };
        }
    }
    Least::Nothing
}

// What the records alone refuse of the incoming cell, whose keyword is an event's number: 12 or 13, or the first 14.
pub fn own_fault<'a>(
    searched: Searched<'a>,
    incoming: &'a [u8],
    cells: &[u64],
    entries: &[u64],
    event: usize,
) -> Least
    requires { (InstanceSearch searched.start.now searched.plan.instances 12 searched.places.now)
        × (ArcSearch searched.start.now searched.plan.arcs searched.plan.first searched.marks.now)
        × (7 ≤ length cells.now) × (28 * get_or cells.now 6 0 ≤ length entries.now) × (event + 1 + get_or cells.now 6 0 < 18446744073709551616) }
    ensures { let s = searched.entry in OwnIs s.start.now s.plan.instances s.plan.arcs s.plan.first incoming.now s.plan.slash cells.now
        entries.now event result }
{
    let cell = views::cell_at(cells, 0);
    let whom = meaning::whom_of(
        searched.start,
        incoming,
        searched.plan,
        searched.places,
        cell,
    );
    if let Whom::Nobody(number) = whom {
        return Least::Fault {
            event,
            number,
            place: cell.place,
            incoming: true,
        };
    }
    let asked = Asked {
        searched,
        text: incoming,
        whom,
        celltype: names::part_of(incoming, cell.typefrom, cell.typeto),
    };
    own_entries(asked, entries, cell.entries, event + 1)
}
