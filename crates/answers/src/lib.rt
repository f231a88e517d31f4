// The answers of the static library: what each function answers, in numbers.
#![tactic(auto)]

ghost use Rattle.std.specs.Prelude.{◌≡◌, false, replicate};
ghost use Rattle.classes.specs.Choice.{pick};
ghost use Rattle.patch.specs.Tokens.{Refused};
ghost use Rattle.answers.specs.Exports.{file_numbers, sheet_numbers, result_of, patched_of};

use patch::meaning::Annotated;
use patch::readcells::FileRead;
use patch::swap::Patched;
use sheetparts::{Fault, Outline};

// What stands below, for the crates above.
pub use patch;
pub use patch::{annotate, onecell, reader};

// The answer of a reading: number 0 and what was read, with from, to of each of the header's texts; or a refusal's number and place.
#[repr(C)]
#[derive(Clone, Copy)]
pub struct ReadNumbers {
    pub number: u64,
    pub place: u64,
    pub cells: u64,
    pub entries: u64,
    pub slash: u64,
    pub scale: u64,
    pub texts: [usize; 14],
}

// The answer of a sheet's check: number 0 and the counts, or refusal 10.
#[repr(C)]
#[derive(Clone, Copy)]
pub struct SheetNumbers {
    pub number: u64,
    pub place: u64,
    pub instances: u64,
    pub arcs: u64,
}

fn bit(flag: bool) -> u64
    ensures { result ≡ pick flag 1 0 }
{
    if flag { 1 } else { 0 }
}

// The numbers of a reading's answer.
pub fn numbers(read: FileRead) -> ReadNumbers
    ensures { result ≡ file_numbers read.answer read.slash read.unit read.texts }
{
    let texts = read.texts;
    match read.answer {
        Err(refusal) => ReadNumbers {
            number: refusal.number as u64,
            place: refusal.place as u64,
            cells: 0,
            entries: 0,
            slash: 0,
            scale: 0,
            texts,
        },
        Ok(counts) => ReadNumbers {
            number: 0,
            place: 0,
            cells: counts.cells as u64,
            entries: counts.entries as u64,
            slash: bit(read.slash),
            scale: read.unit as u64,
            texts,
        },
    }
}

// The answer where the divider or the time scale is none that a file can have: 255, which is no refusal's number.
pub fn no_setting() -> ReadNumbers
    ensures { result ≡ file_numbers (Refused 255 0) false 6 (replicate 14 0) }
{
    ReadNumbers {
        number: 255,
        place: 0,
        cells: 0,
        entries: 0,
        slash: 0,
        scale: 0,
        texts: [0usize; 14],
    }
}

// The answer of annotating or patching: number 0, or a refusal's number and its place, which stands in the incoming text if `incoming` is 1.
#[repr(C)]
#[derive(Clone, Copy)]
pub struct ResultNumbers {
    pub number: u64,
    pub place: u64,
    pub incoming: u64,
}

// The numbers of a sheet's check.
pub fn sheet_numbers(check: Result<Outline, Fault>) -> SheetNumbers
    ensures { result ≡ sheet_numbers check }
{
    match check {
        Err(_) => SheetNumbers {
            number: 10,
            place: 0,
            instances: 0,
            arcs: 0,
        },
        Ok(outline) => SheetNumbers {
            number: 0,
            place: 0,
            instances: outline.instances as u64,
            arcs: outline.arcs as u64,
        },
    }
}

// The numbers of what annotating answers.
pub fn annotated_numbers(answer: Annotated) -> ResultNumbers
    ensures { result ≡ result_of answer }
{
    match answer {
        Annotated::Done => ResultNumbers {
            number: 0,
            place: 0,
            incoming: 0,
        },
        Annotated::Refused { number, place } => ResultNumbers {
            number: number as u64,
            place: place as u64,
            incoming: 0,
        },
    }
}

// The numbers of what patching answers.
pub fn patched_numbers(answer: Patched) -> ResultNumbers
    ensures { result ≡ patched_of answer }
{
    match answer {
        Patched::Done => ResultNumbers {
            number: 0,
            place: 0,
            incoming: 0,
        },
        Patched::Refused {
            number,
            place,
            incoming: side,
        } => {
            ResultNumbers {
                number: number as u64,
                place: place as u64,
                incoming: bit(side),
            }
        }
    }
}
