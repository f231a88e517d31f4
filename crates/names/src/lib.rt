// Names of instances and of ports: their canonical form, their order, and where their bytes stand (document 01, 'Bytes and words').
#![tactic(auto)]

ghost use Rattle.std.specs.Prelude.{◌≡◌, false, ◌≤◌, length};
ghost use Rattle.std.specs.Ordering.{ordering_index};
ghost use Rattle.names.specs.Order.{cmp_num, cmp, front, same_text};
ghost use Rattle.names.specs.Name.{turned, canon, full, behind, same_name, start_behind, last_start, one_below, part_of, name_of_it};

use std::cmp::Ordering;

// How one thing compares with another: the numbers of specs/Order.antt.
const BEFORE: u8 = 0;

const SAME: u8 = 1;

const AFTER: u8 = 2;

// How many bytes `cmp_front` compares by itself. The library's comparison takes longer where names differ early or are short, less on long ones.
const EARLY: usize = 8;

fn number_of(order: Ordering) -> u8
    ensures { result ≡ ordering_index order }
{
    match order {
        Ordering::Less => BEFORE,
        Ordering::Equal => SAME,
        Ordering::Greater => AFTER,
    }
}

#[tactic(auto, unfolding(crate::specs::Order::cmp_num))]
pub fn cmp_num(x: u8, y: u8) -> u8
    ensures { result ≡ cmp_num x y }
{
    number_of(x.cmp(&y))
}

// The order of two texts.
#[tactic(auto, using(crate::proofs::Compare::cmp_is))]
pub fn cmp_texts(x: &[u8], y: &[u8]) -> u8
    ensures { result ≡ cmp x.now y.now }
{
    number_of(x.cmp(y))
}

// Whether two texts are the same, byte for byte.
#[tactic(auto, using(crate::proofs::Compare::same_is), unfolding(crate::specs::Order::same_text))]
pub fn same_text(x: &[u8], y: &[u8]) -> bool
    ensures { result ≡ same_text x.now y.now }
{
    x == y
}

// x against y as far as y goes.
#[tactic(auto, using(crate::proofs::Compare::front_is))]
fn cmp_front(x: &[u8], y: &[u8]) -> u8
    ensures { result ≡ front x.now y.now }
{
    let n = x.len().min(y.len());
    let early = n.min(EARLY);
    for i in 0..early {
        if x[i] != y[i] {
            return cmp_num(x[i], y[i]);
        }
    }
    if n == early {
        return if n < y.len() { BEFORE } else { SAME };
    }
    number_of(x[early..n].cmp(&y[early..]))
}

#[tactic(auto, unfolding(crate::specs::Name::turned))]
pub fn turn(slash: bool, escaped: bool, byte: u8) -> u8
    ensures { result ≡ turned slash escaped byte }
{
    if !escaped && byte == nameshape::divider_of(slash) {
        b'.'
    } else {
        byte
    }
}

// x against the written name as far as that goes.
fn cmp_front_turned(x: &[u8], name: &[u8], slash: bool) -> u8
    ensures { result ≡ front x.now (canon slash name.now) }
{
    let mut escaped = false;
    for (i, &written) in name.iter().enumerate() {
        if x.len() <= i {
            return BEFORE;
        }
        let d = turn(slash, escaped, written);
        let order = cmp_num(x[i], d);
        if order != SAME {
            return order;
        }
        escaped = nameshape::escape(escaped, written);
    }
    SAME
}

// The same; a name whose divider is `.` is its own canonical form.
pub fn cmp_front_written(x: &[u8], name: &[u8], slash: bool) -> u8
    ensures { result ≡ front x.now (canon slash name.now) }
{
    if slash {
        cmp_front_turned(x, name, slash)
    } else {
        cmp_front(x, name)
    }
}

// The canonical name x against the written name.
pub fn cmp_written(x: &[u8], name: &[u8], slash: bool) -> u8
    ensures { result ≡ cmp x.now (canon slash name.now) }
{
    let order = cmp_front_written(x, name, slash);
    if order != SAME {
        return order;
    }
    if name.len() < x.len() { AFTER } else { SAME }
}

// The canonical name x against the full name of the written one in the instance with this path (canonical; empty at the top level).
pub fn cmp_full(x: &[u8], path: &[u8], name: &[u8], slash: bool) -> u8
    ensures { result ≡ cmp x.now (full path.now (canon slash name.now)) }
{
    let n = path.len();
    if n == 0 {
        return cmp_written(x, name, slash);
    }
    let order = cmp_front(x, path);
    if order != SAME {
        return order;
    }
    if x.len() <= n {
        return BEFORE;
    }
    let by_dot = cmp_num(x[n], b'.');
    if by_dot != SAME {
        return by_dot;
    }
    let behind = n + 1;
    cmp_written(&x[behind..], name, slash)
}

// Where x goes on behind the path and its `.`, if it begins so; behind the empty path at once.
fn behind(x: &[u8], path: &[u8]) -> Option<usize>
    ensures { result ≡ behind x.now path.now }
{
    let n = path.len();
    if n == 0 {
        return Some(0);
    }
    // Here `==` takes less than `cmp`: texts that differ in their first four bytes are told apart in line.
    if n < x.len() && x[n] == b'.' && &x[..n] == path {
        return Some(n + 1);
    }
    None
}

// Whether the canonical name x is the full name of the written one in the instance with this path (canonical; empty at the top level). `cmp_full` says
// as much and the order besides, which takes longer to tell.
#[tactic(auto, using(crate::proofs::Paths::behind_le))]
pub fn same_full(x: &[u8], path: &[u8], name: &[u8], slash: bool) -> bool
    ensures { result ≡ same_name x.now (full path.now (canon slash name.now)) }
{
    let Some(start) = behind(x, path) else {
        return false;
    };
    cmp_written(&x[start..], name, slash) == SAME
}

// Whether two canonical names are the same name.
#[tactic(auto, unfolding(crate::specs::Name::same_name))]
pub fn same_name(x: &[u8], y: &[u8]) -> bool
    ensures { result ≡ same_name x.now y.now }
{
    same_text(x, y)
}

// Where a component starts, behind one more byte.
#[tactic(auto, unfolding(crate::specs::Name::start_behind))]
fn start_behind(escaped: bool, start: usize, next: usize, byte: u8) -> usize
    ensures { result ≡ start_behind escaped start next byte }
{
    if !escaped && byte == b'.' {
        next
    } else {
        start
    }
}

// Where the last component of a canonical name starts.
#[tactic(auto, using(crate::specs::Name::start_turn, crate::specs::Name::start_end, crate::specs::Name::start_le), unfolding(crate::specs::Name::last_start))]
pub fn last_component(name: &[u8]) -> usize
    ensures { (result ≡ last_start name.now) × (result ≤ length name.now) }
{
    let mut start = 0;
    let mut escaped = false;
    for (i, &byte) in name.iter().enumerate() {
        start = start_behind(escaped, start, i + 1, byte);
        escaped = nameshape::escape(escaped, byte);
    }
    start
}

// Whether the canonical name is the path plus one component.
pub fn one_below(path: &[u8], name: &[u8]) -> bool
    ensures { result ≡ one_below path.now name.now }
{
    let Some(start) = behind(name, path) else {
        return false;
    };
    last_component(name) == start
}

// The bytes of the text from start up to end; none where they do not lie in it.
#[tactic(auto, unfolding(crate::specs::Name::part_of))]
pub fn part_of(text: &[u8], start: usize, end: usize) -> &[u8]
    ensures { result.now ≡ part_of text.now start end }
{
    text.get(start..end).unwrap_or(&[])
}

// A name's bytes: after a swap they stand in the old file or in the incoming cell.
#[tactic(auto, unfolding(crate::specs::Name::name_of_it))]
pub fn name_of<'a>(
    old: &'a [u8],
    incoming: &'a [u8],
    from_incoming: bool,
    start: usize,
    end: usize,
) -> &'a [u8]
    ensures { result.now ≡ name_of_it old.now incoming.now from_incoming start end }
{
    part_of(if from_incoming { incoming } else { old }, start, end)
}
