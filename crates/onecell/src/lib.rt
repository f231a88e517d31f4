// The reader of a text that is one cell, as a re-issued one comes.
#![tactic(auto)]

ghost use Rattle.std.specs.Prelude.{true, false, ◌*◌, ◌-◌, ◌/◌, ◌≤◌, ◌<◌, length};
ghost use Rattle.readcells.specs.Files.{FileIs};
ghost use Rattle.onecell.specs.One.{OneRead};
ghost use Rattle.grammar.specs.Outcome.{read_cell_of};

use headsteps::take_opened;
use readcells::{Counts, FileRead, Rows, finish, read_tail};
use tokenforms::Refusal;
use values::wrong_at;

// No text is longer than this.
const LIMIT: usize = 16777216;

// One pass through a text that is to be one cell.
fn one_cell(
    text: &[u8],
    slash: bool,
    unit: u8,
    fill: bool,
    room: Counts,
    cells: &mut [u64],
    entries: &mut [u64],
) -> Result<Counts, Refusal>
    requires { (7 * room.cells ≤ length cells.old) × (28 * room.entries ≤ length entries.old) }
    ensures { OneRead text.now slash unit fill room.cells room.entries cells.old cells.new entries.old entries.new result }
{
    let hand = take_opened(text, 0)?;
    let token = hand.token;
    let place = token.start;
    if hand.key != 53 {
        let number = wrong_at(&text[place..token.end], token.kind, true);
        return Err(Refusal { number, place });
    }
    if room.cells == 0 {
        return Err(Refusal { number: 9, place });
    }
    let rows = Rows {
        fill,
        cell: 0,
        entry: 0,
    };
    let tail = read_tail(
        text,
        token.end,
        place,
        slash,
        unit,
        room.entries,
        rows,
        cells,
        entries,
    )?;
    finish(text, tail.end, 1, tail.count)
}

// Reads a text that is one cell, with white space and comments around it, by the divider and the time scale given (those of the file that the
// cell is for), into tables as read_file does. It has no header, so each of the header's texts is 0 .. 0.
pub fn read_cell(
    text: &[u8],
    slash: bool,
    unit: u8,
    cells: &mut [u64],
    entries: &mut [u64],
) -> FileRead
    ensures { FileIs (read_cell_of slash unit (length cells.old / 7) (length entries.old / 28) text.now) cells.old cells.new entries.old entries.new result }
{
    if LIMIT < text.len() {
        return readcells::refused(Refusal {
            number: 1,
            place: 0,
        });
    }
    let room = Counts {
        cells: cells.len() / 7,
        entries: entries.len() / 28,
    };
    match one_cell(text, slash, unit, false, room, cells, entries) {
        Err(refusal) => readcells::refused(refusal),
        Ok(counts) => {
            // What was read once is read again, now into the tables.
            let _ = one_cell(text, slash, unit, true, room, cells, entries);
            FileRead {
                answer: Ok(counts),
                slash,
                unit,
                texts: [0usize; 14],
            }
        }
    }
}
