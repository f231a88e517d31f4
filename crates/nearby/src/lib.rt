// Cells and entries that can touch none of the seated arcs, found by the name that the arcs have in common.
#![tactic(auto)]

ghost use Rattle.std.specs.Prelude.{◌≡◌, true, false, ◌+◌, ◌≤◌, ◌<◌, length, take, eqb};
ghost use Rattle.names.specs.Name.{canon, part_of};
ghost use Rattle.sheetlaws.specs.Sheet.{ar_next};
ghost use Rattle.nearby.specs.Seats.{agree, Ends, There, Common, NoneNear, kind_fits, NoneFits};

use grammar::Cell;
use meant::sheetrecords::Arc;

const EVERY: u8 = 2;

const SAME: u8 = 1;

const IOPATH: u8 = 1;

const DEVICE: u8 = 4;

// Where there are more seats than these, an entry's arc is looked up, and not each seat asked.
const FEW: usize = 64;

// At most so many of a text's first bytes.
fn front_part(text: &[u8], n: usize) -> &[u8]
    ensures { result.now ≡ take n text.now }
{
    if text.len() <= n {
        return text;
    }
    &text[0..n]
}

// How many of the first bytes of x agree with y, as far as y goes.
fn agreeing(x: &[u8], y: &[u8]) -> usize
    ensures { (result ≤ length x.now) × (agree y.now (take result x.now) ≡ true) }
{
    for (i, byte) in x.iter().enumerate() {
        if y.len() <= i {
            return x.len();
        }
        if *byte != y[i] {
            return i;
        }
    }
    x.len()
}

// How many of the first bytes of a name agree with both ends of an arc, as far as these go.
fn agreeing_ends(start: &[u8], arc: usize, name: &[u8]) -> usize
    requires { ar_next start.now arc ≤ length start.now }
    ensures { (result ≤ length name.now) × Ends start.now arc (take result name.now) }
{
    let arc = Arc {
        sheet: start,
        place: arc,
    };
    let n = agreeing(name, arc.first_end());
    agreeing(front_part(name, n), arc.second_end())
}

// A name with which the ends of all seated arcs agree: the longest front part of the first one's first end.
pub fn common_front<'a>(start: &'a [u8], arcs: &[usize]) -> &'a [u8]
    requires { There start.now arcs.now (length arcs.now) }
    ensures { Common start.now arcs.now (length arcs.now) result.now }
{
    if arcs.is_empty() {
        return &start[0..0];
    }
    let name = Arc {
        sheet: start,
        place: arcs[0],
    }
    .first_end();
    let mut n = name.len();
    for arc in arcs {
        n = agreeing_ends(start, *arc, front_part(name, n));
    }
    front_part(name, n)
}

// Whether a canonical name and a written one agree as far as both go.
fn agrees(name: &[u8], written: &[u8], slash: bool) -> bool
    ensures { agree name.now (canon slash written.now) ≡ true → result ≡ true }
{
    names::cmp_front_written(name, front_part(written, name.len()), slash) == SAME
}

// Whether a cell has a path that can touch none of the seated arcs.
pub fn is_far(text: &[u8], slash: bool, cell: Cell, common: &[u8]) -> bool
    ensures { result ≡ true → (eqb cell.sort 2 ≡ false)
        × (agree common.now (canon slash (part_of text.now cell.pathfrom cell.pathto)) ≡ false) }
{
    if cell.sort == EVERY {
        return false;
    }
    let path = names::part_of(text, cell.pathfrom, cell.pathto);
    !agrees(common, path, slash)
}

// Whether a cell can touch one of the seated arcs: it has no path of its own, or that is a front part of an end. Many are not asked.
pub fn is_near(start: &[u8], text: &[u8], slash: bool, cell: Cell, arcs: &[usize]) -> bool
    requires { There start.now arcs.now (length arcs.now) }
    ensures { result ≡ false → (eqb cell.sort 2 ≡ false)
        × NoneNear start.now text.now slash cell.pathfrom cell.pathto arcs.now (length arcs.now) }
{
    if cell.sort == EVERY {
        return true;
    }
    if FEW < arcs.len() {
        return true;
    }
    for arc in arcs {
        if touching::may_touch(start, text, slash, cell.pathfrom, cell.pathto, *arc) {
            return true;
        }
    }
    false
}

// Whether an entry of a kind can mean an arc of another: DEVICE means IOPATH arcs.
fn fits(kind: u8, other: u8) -> bool
    ensures { result ≡ kind_fits kind other }
{
    if kind == DEVICE {
        return other == IOPATH;
    }
    other == kind
}

// Whether an entry of a kind can mean one of the seated arcs. Many are not asked.
pub fn is_wanted(start: &[u8], arcs: &[usize], kind: u8) -> bool
    requires { There start.now arcs.now (length arcs.now) }
    ensures { result ≡ false → NoneFits start.now kind arcs.now (length arcs.now) }
{
    if FEW < arcs.len() {
        return true;
    }
    for arc in arcs {
        let arc = Arc {
            sheet: start,
            place: *arc,
        };
        if fits(kind, arc.kind()) {
            return true;
        }
    }
    false
}
