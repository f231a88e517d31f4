// The cells of a text, one after the other, into the lent tables; and what a reading answers.
#![tactic(auto)]

ghost use Rattle.std.specs.Prelude.{◌≡◌, Err, false, ◌+◌, ◌*◌, ◌≤◌, length, replicate};
ghost use Rattle.classes.specs.Choice.{pick};
ghost use Rattle.rules.specs.Promises.{InHand};
ghost use Rattle.tables.specs.Layout.{cell_row};
ghost use Rattle.tables.specs.Pastes.{put};
ghost use Rattle.readcells.specs.Whole.{TailRead, MoreRead, EndRead};
ghost use Rattle.readcells.specs.Left.{CellsRead, Finished};

use cellhead::cell_head;
use cells::read_body;
use grammar::{Cell, Hand, ReadBody};
use headsteps::take;
use tables::put_cell;
use tokens::token_from;
use values::wrong_at;

// What stands below, for the crates above.
pub use tokenforms::Refusal;

// Behind a cell: the next one's keyword in hand, or the place behind the file's closing bracket.
#[derive(Clone, Copy)]
pub enum More {
    Next(Hand),
    Last(usize),
}

// How many cells and entries a text has.
#[derive(Clone, Copy)]
pub struct Counts {
    pub cells: usize,
    pub entries: usize,
}

// Where a cell and its entries go: whether the tables are to be filled, the cell's row, and its first entry's.
#[derive(Clone, Copy)]
pub struct Rows {
    pub fill: bool,
    pub cell: usize,
    pub entry: usize,
}

// The record goes to its row, where the table is to be filled.
fn note_cell(cells: &mut [u64], row: usize, fill: bool, c: Cell)
    requires { 7 * row + 7 ≤ length cells.old }
    ensures { cells.new ≡ pick fill (put cells.old (7 * row) (cell_row c)) cells.old }
{
    if fill {
        put_cell(cells, row, c);
    }
}

// A cell behind its keyword, which stands at place.
pub fn read_tail(
    text: &[u8],
    from: usize,
    place: usize,
    slash: bool,
    unit: u8,
    room: usize,
    rows: Rows,
    cells: &mut [u64],
    entries: &mut [u64],
) -> Result<ReadBody, Refusal>
    requires { (from ≤ length text.now) × (28 * (rows.entry + room) ≤ length entries.old) × (7 * rows.cell + 7 ≤ length cells.old) }
    ensures { TailRead text.now from slash unit room place rows.fill rows.cell cells.old cells.new rows.entry entries.old entries.new result }
{
    let head = cell_head(text, from, slash)?;
    let body = read_body(
        text, head.end, slash, unit, room, rows.fill, rows.entry, entries,
    )?;
    let cell = Cell {
        place,
        typefrom: head.typefrom,
        typeto: head.typeto,
        sort: head.sort,
        pathfrom: head.pathfrom,
        pathto: head.pathto,
        entries: body.count,
    };
    note_cell(cells, rows.cell, rows.fill, cell);
    Ok(body)
}

// Behind a cell.
fn cell_more(text: &[u8], from: usize, slash: bool) -> Result<More, Refusal>
    requires { from ≤ length text.now }
    ensures { MoreRead text.now from slash result }
{
    let token = token_from(text, from)?;
    if token.kind == 3 {
        return Ok(More::Last(token.end));
    }
    if token.kind == 2 {
        let hand = take(text, token.end)?;
        return Ok(More::Next(hand));
    }
    Err(Refusal {
        number: 4,
        place: token.start,
    })
}

// The text's end, behind which nothing may stand.
fn text_end(text: &[u8], from: usize) -> Result<usize, Refusal>
    requires { from ≤ length text.now }
    ensures { EndRead text.now from result }
{
    match token_from(text, from) {
        Ok(token) => Err(Refusal {
            number: 4,
            place: token.start,
        }),
        Err(refusal) => {
            if refusal.number == 4 {
                return Ok(refusal.place);
            }
            Err(refusal)
        }
    }
}

// The answer behind the file's closing bracket, of n cells with m entries.
pub fn finish(text: &[u8], from: usize, n: usize, m: usize) -> Result<Counts, Refusal>
    requires { from ≤ length text.now }
    ensures { Finished text.now from n m result }
{
    text_end(text, from)?;
    Ok(Counts {
        cells: n,
        entries: m,
    })
}

// All cells, from the first one's keyword in hand to the text's end. There is room for so many cells and entries.
pub fn read_cells(
    text: &[u8],
    lead: Result<Hand, Refusal>,
    slash: bool,
    unit: u8,
    fill: bool,
    room: Counts,
    cells: &mut [u64],
    entries: &mut [u64],
) -> Result<Counts, Refusal>
    requires { InHand text.now lead × (7 * room.cells ≤ length cells.old) × (28 * room.entries ≤ length entries.old) }
    ensures { CellsRead text.now lead slash unit room.cells room.entries fill cells.old cells.new entries.old entries.new result }
{
    let mut hand = lead?;
    let mut n: usize = 0;
    let mut m: usize = 0;
    // No `for`: whether another cell follows shows only when this one is read.
    loop {
        let token = hand.token;
        let place = token.start;
        if hand.key != 53 {
            let number = wrong_at(&text[place..token.end], token.kind, true);
            return Err(Refusal { number, place });
        }
        if n == room.cells {
            return Err(Refusal { number: 9, place });
        }
        let rows = Rows {
            fill,
            cell: n,
            entry: m,
        };
        let tail = read_tail(
            text,
            token.end,
            place,
            slash,
            unit,
            room.entries - m,
            rows,
            cells,
            entries,
        )?;
        n += 1;
        m += tail.count;
        match cell_more(text, tail.end, slash)? {
            More::Last(end) => return finish(text, end, n, m),
            More::Next(next) => hand = next,
        }
    }
}

// One pass through a file: what it has, and what its header says.
#[derive(Clone, Copy)]
pub struct Pass {
    pub counts: Counts,
    pub slash: bool,
    pub unit: u8,
}

// A whole file: the answer; the divider, the time scale as a power of ten in femtoseconds, and where the header's texts stand (from .. to ..
// of each, by the number that header_text takes; 0 .. 0 for a missing one).
#[derive(Clone, Copy)]
pub struct FileRead {
    pub answer: Result<Counts, Refusal>,
    pub slash: bool,
    pub unit: u8,
    pub texts: [usize; 14],
}

// A refused file.
pub fn refused(refusal: Refusal) -> FileRead
    ensures { (result.answer ≡ Err refusal) × (result.slash ≡ false) × (result.unit ≡ 6) × (result.texts ≡ replicate 14 0) }
{
    FileRead {
        answer: Err(refusal),
        slash: false,
        unit: 6,
        texts: [0usize; 14],
    }
}
