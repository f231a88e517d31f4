// Use of a timing sheet that was checked: the search for an instance and for an arc, and whether two sheets have the same records
// (document 01, 'The timing sheet', 'Annotating', refusal 18).
#![tactic(auto)]

ghost use Rattle.std.specs.Prelude.{◌≡◌, true, false, ℕ, suc, List, ◌+◌, ◌*◌, ◌/◌, ◌-◌, ◌≤◌, ◌<◌, ltb, eqb, length};
ghost use Rattle.classes.specs.Choice.{pick};
ghost use Rattle.wire.specs.Wire.{Bytes, part};
ghost use Rattle.names.specs.Order.{cmp, same_text};
ghost use Rattle.names.specs.Name.{canon};
ghost use Rattle.sheetparts.specs.Form.{Key, key_at, path_at, cmp_key};
ghost use Rattle.sheetlaws.specs.Sheet.{ar_next, in_end, nth};
ghost use Rattle.sheet.specs.Search.{stride_of, put_mark, marked, search, NotBeyond, Rises, Whole, Search};
ghost use Rattle.sheet.specs.Find.{wanted_by, find_arc, find_instance, ArcsGood, InsGood, ArcSearch, InstanceSearch};
ghost use Rattle.sheet.specs.Find.{arcs_whole, ins_whole, arcs_tail, ins_tail, arcs_rise, ins_rise};
ghost use Rattle.sheet.specs.Same.{same_keys, same_records};

use sheetrecords::{Arc, Instance};

// What a comparison says of the same and of something greater.
const SAME: u8 = 1;

const AFTER: u8 = 2;

// Landmarks: the places of every so many records, in a table that is made once and lent to each search.

// How far apart they stand.
fn stride_of(count: usize) -> usize
    ensures { result ≡ stride_of count }
{
    count / 4096 + 1
}

fn put_mark(marks: &mut [u32; 4096], index: usize, stride: usize, place: u32)
    requires { (0 < stride) × (index / stride < 4096) }
    ensures { marks.new ≡ put_mark marks.old stride index place }
{
    let j = index / stride;
    if j * stride == index {
        marks[j] = place;
    }
}

// A kind of record, and what one of that kind is looked up by: the type of a value is the kind, the value what is wanted.
trait Record: Copy {
    // What records are ordered by; that of the record at a place, and the wanted one.
    ghost Key: { Type 0 };

    ghost key: { List ℕ → ℕ → Key };

    ghost order: { Key → Key → ℕ };

    ghost wanted: { Self → Key };

    // The place behind a record; so many records from a place on, without a fault.
    ghost next: { List ℕ → ℕ → ℕ };

    ghost Good: { List ℕ → ℕ → ℕ → Type 0 };

    fn behind(sheet: &[u8], place: usize) -> usize
        requires { next sheet.now place ≤ length sheet.now }
        ensures { result ≡ next sheet.now place };

    fn against(self, sheet: &[u8], place: usize) -> u8
        requires { next sheet.now place ≤ length sheet.now }
        ensures { result ≡ order (key sheet.now place) (wanted self) };

    ghost whole: { (b : List ℕ) → Whole b (next b) (Good b) };

    ghost tail: { (b : List ℕ) (n p : ℕ) → Good b (suc n) p → Good b n (next b p) };

    ghost rises: { (b : List ℕ) → Bytes b → Rises (key b) (next b) order (Good b) };
}

// Marks the records of a kind from a place on.
fn mark<R: Record>(sheet: &[u8], count: usize, first: usize, marks: &mut [u32; 4096])
    requires { (R.Good sheet.now count first) × (length sheet.now ≤ 16777216) }
    ensures { marks.new ≡ marked (R.next sheet.now) first (stride_of count) marks.old count }
{
    let stride = stride_of(count);
    let mut here = first;
    for k in 0..count {
        put_mark(marks, k, stride, here as u32);
        here = R::behind(sheet, here);
    }
}

// The wanted record among the records from a place on, one by one up to the first that is greater.
fn search<R: Record>(sheet: &[u8], count: usize, first: usize, wanted: R) -> Option<usize>
    requires { ∥ R.Good sheet.now count first ∥₁ }
    ensures { result ≡ search (R.key sheet.now) (R.next sheet.now) R.order (R.wanted wanted) count first }
{
    let mut here = first;
    for _ in 0..count {
        let order = wanted.against(sheet, here);
        if order == SAME {
            return Some(here);
        }
        if order == AFTER {
            return None;
        }
        here = R::behind(sheet, here);
    }
    None
}

// A search: records of a sheet that was checked, one behind the other, the table of their landmarks, and what is wanted.
#[derive(Drop)]
struct Lookup<'a, R: Record> {
    sheet: &'a [u8],
    count: usize,
    first: usize,
    marks: &'a [u32; 4096],
    wanted: R,
    ghost bytes: { Bytes sheet.now },
    ghost ready: { ∥ Search (R.next sheet.now) (R.Good sheet.now) count first marks.now ∥₁ },
}

impl<R: Record> Lookup<'_, R> {
    // Whether the landmark is none, or greater than what is wanted.
    fn mark_after(&self, index: usize) -> bool
        requires { index < 4096 }
        ensures { result ≡ pick (ltb (index * stride_of self.now.count) self.now.count)
            (eqb (R.order (R.key self.now.sheet.now (nth (R.next self.now.sheet.now) (index * stride_of self.now.count) self.now.first))
            (R.wanted self.now.wanted)) 2) true }
    {
        let skipped = index * stride_of(self.count);
        if skipped < self.count {
            return self.wanted.against(self.sheet, self.marks[index] as usize) == AFTER;
        }
        true
    }

    // The last landmark that is not greater than what is wanted, or the first one: by halving.
    fn last_mark(&self) -> usize
        ensures { (result < 4096) × NotBeyond (R.key self.now.sheet.now) (R.next self.now.sheet.now) R.order (R.wanted self.now.wanted)
            self.now.count self.now.first (stride_of self.now.count) result }
    {
        let mut low = 0;
        let mut high = 4096;
        // Either bound moves, so this is a `while`.
        while low + 1 < high {
            let middle = (low + high) / 2;
            if self.mark_after(middle) {
                high = middle;
            } else {
                low = middle;
            }
        }
        low
    }

    // The wanted record, or none: from the last landmark that is not greater.
    fn find(&self) -> Option<usize>
        ensures { result ≡ search (R.key self.now.sheet.now) (R.next self.now.sheet.now) R.order (R.wanted self.now.wanted)
            self.now.count self.now.first }
    {
        let index = self.last_mark();
        let skipped = index * stride_of(self.count);
        if skipped < self.count {
            return search(
                self.sheet,
                self.count - skipped,
                self.marks[index] as usize,
                self.wanted,
            );
        }
        None
    }
}

// What an arc is looked up by: its kind, its edges, and the names of its ends in the instance with a path.
#[derive(Clone, Copy)]
pub struct ArcKey<'a> {
    pub kind: u8,
    pub edge: u8,
    pub edge2: u8,
    pub path: &'a [u8],
    pub name: &'a [u8],
    pub name2: &'a [u8],
    pub slash: bool,
}

// The second end of an arc against the wanted one.
fn second_vs(arc: Arc, key: ArcKey) -> u8
    ensures { result ≡ cmp (key_at arc.entry.sheet.now arc.entry.place).second (wanted_by key.entry).second }
{
    let end = arc.second_end();
    if sheetparts::one_end(key.kind) {
        return if end.is_empty() { SAME } else { AFTER };
    }
    names::cmp_full(end, key.path, key.name2, key.slash)
}

// The key of an arc against the wanted one. Inlined, as is `against` of an `ArcKey`: a call that takes a key copies it.
#[inline(always)]
pub fn key_vs(arc: Arc, key: ArcKey) -> u8
    ensures { result ≡ cmp_key (key_at arc.entry.sheet.now arc.entry.place) (wanted_by key.entry) }
{
    let by_kind = names::cmp_num(arc.kind(), key.kind);
    if by_kind != SAME {
        return by_kind;
    }
    let by_first = names::cmp_full(arc.first_end(), key.path, key.name, key.slash);
    if by_first != SAME {
        return by_first;
    }
    let by_edge = names::cmp_num(arc.edge(), key.edge);
    if by_edge != SAME {
        return by_edge;
    }
    let by_second = second_vs(arc, key);
    if by_second != SAME {
        return by_second;
    }
    names::cmp_num(arc.edge2(), key.edge2)
}

impl Record for ArcKey<'_> {
    ghost Key = { Key };

    ghost key = { key_at };

    ghost order = { cmp_key };

    ghost wanted = { wanted_by };

    ghost next = { ar_next };

    ghost Good = { ArcsGood };

    ghost whole = { arcs_whole };

    ghost tail = { λ b n p g. (arcs_tail b n p g).1 };

    ghost rises = { arcs_rise };

    fn behind(sheet: &[u8], place: usize) -> usize
        requires { ar_next sheet.now place ≤ length sheet.now }
        ensures { result ≡ ar_next sheet.now place }
    {
        Arc { sheet, place }.next()
    }

    #[inline(always)]
    fn against(self, sheet: &[u8], place: usize) -> u8 {
        key_vs(Arc { sheet, place }, self)
    }
}

// What an instance is looked up by: its written path.
#[derive(Clone, Copy)]
struct WrittenPath<'a> {
    path: &'a [u8],
    slash: bool,
}

impl Record for WrittenPath<'_> {
    ghost Key = { List ℕ };

    ghost key = { path_at };

    ghost order = { cmp };

    ghost wanted = { λ w. canon w.slash w.path.now };

    ghost next = { in_end };

    ghost Good = { InsGood };

    ghost whole = { ins_whole };

    ghost tail = { λ b n p g. (ins_tail b n p g).1 };

    ghost rises = { λ b y. ins_rise b };

    fn behind(sheet: &[u8], place: usize) -> usize
        requires { in_end sheet.now place ≤ length sheet.now }
        ensures { result ≡ in_end sheet.now place }
    {
        Instance { sheet, place }.next()
    }

    fn against(self, sheet: &[u8], place: usize) -> u8 {
        names::cmp_written(Instance { sheet, place }.path(), self.path, self.slash)
    }
}

pub fn mark_arcs(sheet: &[u8], count: usize, first: usize, marks: &mut [u32; 4096])
    requires { (ArcsGood sheet.now count first) × (length sheet.now ≤ 16777216) }
    ensures { marks.new ≡ marked (ar_next sheet.now) first (stride_of count) marks.old count }
{
    mark::<ArcKey>(sheet, count, first, marks);
}

pub fn mark_instances(sheet: &[u8], count: usize, first: usize, marks: &mut [u32; 4096])
    requires { (InsGood sheet.now count first) × (length sheet.now ≤ 16777216) }
    ensures { marks.new ≡ marked (in_end sheet.now) first (stride_of count) marks.old count }
{
    mark::<WrittenPath>(sheet, count, first, marks);
}

// The arc with the wanted key, or none. Sheet, count, first and marks come one by one here and below: a caller has them in values of its own,
// and would only build another for the call.
pub fn find_arc(
    sheet: &[u8],
    count: usize,
    first: usize,
    marks: &[u32; 4096],
    key: ArcKey,
) -> Option<usize>
    requires { ArcSearch sheet.now count first marks.now }
    ensures { result ≡ find_arc sheet.now (wanted_by key.entry) count first }
{
    Lookup {
        sheet,
        count,
        first,
        marks,
        wanted: key,
    }
    .find()
}

// The instance with the written path, or none.
pub fn find_instance(
    sheet: &[u8],
    count: usize,
    first: usize,
    marks: &[u32; 4096],
    path: &[u8],
    slash: bool,
) -> Option<usize>
    requires { InstanceSearch sheet.now count first marks.now }
    ensures { result ≡ find_instance sheet.now (canon slash path.now) count first }
{
    Lookup {
        sheet,
        count,
        first,
        marks,
        wanted: WrittenPath { path, slash },
    }
    .find()
}

// Whether they have the same bytes from start up to end.
fn same_part(sheet: &[u8], other: &[u8], start: usize, end: usize) -> bool
    requires { (start ≤ end) × (end ≤ length sheet.now) × (length other.now ≡ length sheet.now) }
    ensures { result ≡ same_text (part sheet.now start (end - start)) (part other.now start (end - start)) }
{
    names::same_text(&sheet[start..end], &other[start..end])
}

fn same_keys(sheet: &[u8], other: &[u8], count: usize, first: usize) -> bool
    requires { (ArcsGood sheet.now count first) × (length other.now ≡ length sheet.now) }
    ensures { result ≡ same_keys sheet.now other.now count first }
{
    let mut here = first;
    for _ in 0..count {
        let end = Arc { sheet, place: here }.values();
        if !same_part(sheet, other, here, end) {
            return false;
        }
        here = end + 144;
    }
    true
}

// Whether two sheets of the same length, the first one checked, have the same records: the same bytes but for the values of arcs.
pub fn same_records(sheet: &[u8], other: &[u8], count: usize, first: usize) -> bool
    requires { (ArcsGood sheet.now count first) × (length other.now ≡ length sheet.now) }
    ensures { result ≡ same_records sheet.now other.now count first }
{
    if same_part(sheet, other, 0, first) {
        return same_keys(sheet, other, count, first);
    }
    false
}
