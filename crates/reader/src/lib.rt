// The reader: a whole file, into tables that the caller lends.
#![tactic(auto)]

ghost use Rattle.std.specs.Prelude.{true, false, ◌*◌, ◌-◌, ◌/◌, ◌≤◌, ◌<◌, length};
ghost use Rattle.readcells.specs.Files.{AllRead, FileIs};
ghost use Rattle.grammar.specs.Outcome.{read_file};

use header::read_header;
use readcells::{Counts, FileRead, Pass, read_cells};
use tokenforms::Refusal;

// No text is longer than this.
const LIMIT: usize = 16777216;

// One pass through a whole file.
fn read_all(
    text: &[u8],
    fill: bool,
    room: Counts,
    cells: &mut [u64],
    entries: &mut [u64],
    texts: &mut [usize; 14],
) -> Result<Pass, Refusal>
    requires { (7 * room.cells ≤ length cells.old) × (28 * room.entries ≤ length entries.old) }
    ensures { AllRead text.now fill room.cells room.entries cells.old cells.new entries.old entries.new texts.old texts.new result }
{
    let head = read_header(text, texts)?;
    let counts = read_cells(
        text,
        Ok(head.hand),
        head.slash,
        head.unit,
        fill,
        room,
        cells,
        entries,
    )?;
    Ok(Pass {
        counts,
        slash: head.slash,
        unit: head.unit,
    })
}

// Reads a file into tables of cells (7 words each) and of entries (28 words each). A refused file leaves both as lent; a file that is read
// leaves its records first, and the room behind them as lent.
pub fn read_file(text: &[u8], cells: &mut [u64], entries: &mut [u64]) -> FileRead
    ensures { FileIs (read_file (length cells.old / 7) (length entries.old / 28) text.now) cells.old cells.new entries.old entries.new result }
{
    if LIMIT < text.len() {
        return readcells::refused(Refusal {
            number: 1,
            place: 0,
        });
    }
    let room = Counts {
        cells: cells.len() / 7,
        entries: entries.len() / 28,
    };
    let mut texts = [0usize; 14];
    match read_all(text, false, room, cells, entries, &mut texts) {
        Err(refusal) => readcells::refused(refusal),
        Ok(pass) => {
            // What was read once is read again, now into the tables.
            let mut again = [0usize; 14];
            let _ = read_all(text, true, room, cells, entries, &mut again);
            FileRead {
                answer: Ok(pass.counts),
                slash: pass.slash,
                unit: pass.unit,
                texts,
            }
        }
    }
}
