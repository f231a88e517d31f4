// The readers of cells. They go through a text twice: first to judge it, with fill false, when nothing is written; then to fill the tables.
#![tactic(auto)]

ghost use Rattle.std.specs.Prelude.{◌≡◌, Bool, Result, ◌+◌, ◌*◌, ◌≤◌, ◌<◌, length, take};
ghost use Rattle.classes.specs.Choice.{pick};
ghost use Rattle.tokenforms.specs.declared.Refusal.{Refusal};
ghost use Rattle.grammar.specs.declared.Keyword.{Keyword};
ghost use Rattle.rules.specs.Promises.{Listable, item, entry_end, entry_of, values_of};
ghost use Rattle.tables.specs.Layout.{entry_row};
ghost use Rattle.tables.specs.Pastes.{put};
ghost use Rattle.rules.specs.Bodies.{Either, Turned, OpenTurned, shut_by, key_turn, item_place};
ghost use Rattle.cells.specs.Cells.{group_of, BodyRead};

use entries::{read_check, read_delay};
use grammar::{Keyword, ReadBody, ReadEntry, Turn, Within};
use tables::put_entry;
use tokenforms::Refusal;
use tokens::token_from;
use values::wrong_at;
use words::key_of;

// One of two keywords, the first or the one that follows it in number, right behind an opening bracket.
fn read_keyword(text: &[u8], from: usize, first: u8) -> Result<Keyword, Refusal>
    requires { (from ≤ length text.now) × (first < 255) }
    ensures { Either text.now from first result }
{
    let token = token_from(text, from)?;
    let word = &text[token.start..token.end];
    let place = token.start;
    if token.kind != 7 {
        let number = wrong_at(word, token.kind, true);
        return Err(Refusal { number, place });
    }
    let key = key_of(word);
    if key != first && key != first + 1 {
        let number = wrong_at(word, token.kind, true);
        return Err(Refusal { number, place });
    }
    if token.long {
        return Err(Refusal { number: 8, place });
    }
    Ok(Keyword {
        second: key != first,
        end: token.end,
    })
}

// A closing bracket from start to end, in a place where what has to stand there stands already (some) or not.
fn shut(within: Within, some: bool, start: usize, end: usize) -> Result<Turn, Refusal>
    ensures { result ≡ shut_by within some start end }
{
    let around = match within {
        Within::Cell => return Ok(Turn::Done(end)),
        Within::Delay | Within::Check => Within::Cell,
        Within::Absolute | Within::Increment => Within::Delay,
    };
    if !some {
        return Err(Refusal {
            number: 4,
            place: start,
        });
    }
    Ok(Turn::On {
        within: around,
        some,
        from: end,
    })
}

// Behind an opening bracket: where one of two keywords leads.
fn open_keyword(
    text: &[u8],
    from: usize,
    first: u8,
    one: Within,
    other: Within,
) -> Result<Turn, Refusal>
    requires { (from ≤ length text.now) × (first < 255) }
    ensures { (r : Result Keyword Refusal) × Either text.now from first r × (result ≡ key_turn one other r) }
{
    let word = read_keyword(text, from, first)?;
    let within = if word.second { other } else { one };
    Ok(Turn::On {
        within,
        some: false,
        from: word.end,
    })
}

// Behind an opening bracket: among a cell's sections DELAY or TIMINGCHECK, in a DELAY ABSOLUTE or INCREMENT, elsewhere an entry.
fn open_turn(text: &[u8], from: usize, within: Within) -> Result<Turn, Refusal>
    requires { from ≤ length text.now }
    ensures { (slash : Bool) → OpenTurned text.now from within slash result }
{
    match within {
        Within::Cell => open_keyword(text, from, 56, Within::Delay, Within::Check),
        Within::Delay => open_keyword(text, from, 58, Within::Absolute, Within::Increment),
        Within::Absolute | Within::Increment | Within::Check => Ok(Turn::Entry(from)),
    }
}

// One step through a cell's sections, up to the next entry.
fn body_turn(text: &[u8], from: usize, within: Within, some: bool) -> Result<Turn, Refusal>
    requires { from ≤ length text.now }
    ensures { (slash : Bool) → Turned text.now from within some slash result }
{
    let token = token_from(text, from)?;
    if token.kind == 3 {
        return shut(within, some, token.start, token.end);
    }
    if token.kind == 2 {
        return open_turn(text, token.end, within);
    }
    Err(Refusal {
        number: 4,
        place: token.start,
    })
}

// The letter of the group of entries that stand there, or 0 where they are checks.
fn group_of(within: Within) -> u8
    ensures { result ≡ group_of within }
{
    match within {
        Within::Absolute => b'A',
        Within::Increment => b'I',
        Within::Check | Within::Cell | Within::Delay => 0,
    }
}

// An entry behind its opening bracket.
fn read_entry(
    text: &[u8],
    from: usize,
    within: Within,
    slash: bool,
    unit: u8,
    room: usize,
) -> Result<ReadEntry, Refusal>
    requires { from ≤ length text.now }
    ensures { Listable text.now from (item_place within slash) slash unit room (entry_end result) (entry_of result) (values_of result) }
{
    let group = group_of(within);
    if group == 0 {
        return read_check(text, from, slash, unit, room);
    }
    read_delay(text, from, slash, unit, group, room)
}

// The record goes to its row, where the table is to be filled.
fn note_entry(entries: &mut [u64], row: usize, fill: bool, e: ReadEntry)
    requires { 28 * row + 28 ≤ length entries.old }
    ensures { entries.new ≡ pick fill (put entries.old (28 * row) (entry_row (item e.entry (take e.values.count e.values.list)))) entries.old }
{
    if fill {
        put_entry(entries, row, e);
    }
}

// A cell's sections, up to its closing bracket. Their entries go to the table from the row on, where it is to be filled; room is how many
// entries there is room for.
pub fn read_body(
    text: &[u8],
    from: usize,
    slash: bool,
    unit: u8,
    room: usize,
    fill: bool,
    row: usize,
    entries: &mut [u64],
) -> Result<ReadBody, Refusal>
    requires { (from ≤ length text.now) × (28 * (row + room) ≤ length entries.old) }
    ensures { BodyRead text.now from slash unit room fill row entries.old entries.new result }
{
    let mut within = Within::Cell;
    let mut some = true;
    let mut p = from;
    let mut n: usize = 0;
    // No `for`: where the next step begins, and whether there is one, shows only when this one is read.
    loop {
        match body_turn(text, p, within, some)? {
            Turn::Done(end) => return Ok(ReadBody { end, count: n }),
            Turn::On {
                within: w,
                some: f,
                from: q,
            } => {
                within = w;
                some = f;
                p = q;
            }
            Turn::Entry(q) => {
                let entry = read_entry(text, q, within, slash, unit, room - n)?;
                note_entry(entries, row + n, fill, entry);
                n += 1;
                some = true;
                p = entry.values.end;
            }
        }
    }
}
