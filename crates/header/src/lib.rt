// The reader of a file's header: what stands before the first cell. The token behind each opening bracket is taken in hand, and handed
// from one optional entry to the next; an entry whose keyword it is reads on, and takes the next such token in hand. A refusal is handed
// on as it is. Each contract is an equation between readings (headsteps/specs/Steps.antt).
#![tactic(auto)]

ghost use Rattle.std.specs.Prelude.{◌≤◌, length, IfOk};
ghost use Rattle.rules.specs.Promises.{InHand, HeaderRead};
ghost use Rattle.headsteps.specs.Steps.{UnitRead, ScaleRead, PassesScale, FileOpened};

use grammar::{Hand, Head};
use headsteps::scales::{Scale, Scaled};
use headsteps::{
    expect_key, pass_bare, pass_divider, pass_text, read_heading, take_next, take_opened,
};
use tokenforms::Refusal;
use tokens::token_from;
use words::{scale_of, unit_of};

// ---- TIMESCALE

// The unit of a time scale, where it is a word of its own; power: that of the number before it, 10 ^ power.
fn read_unit(text: &[u8], from: usize, power: u8) -> Result<Scale, Refusal>
    requires { (from ≤ length text.now) × (power ≤ 2) }
    ensures { UnitRead text.now from power result }
{
    let token = token_from(text, from)?;
    if token.kind == 7 {
        let unit = unit_of(&text[token.start..token.end]);
        if 1 <= unit {
            return Ok(Scale {
                unit: power + (unit - 1),
                end: token.end,
            });
        }
    }
    Err(Refusal {
        number: 4,
        place: token.start,
    })
}

// A time scale, behind its keyword: a number and its unit, in one word or two.
fn read_scale(text: &[u8], from: usize) -> Result<Scale, Refusal>
    requires { from ≤ length text.now }
    ensures { ScaleRead text.now from result }
{
    let token = token_from(text, from)?;
    if token.kind == 7 {
        let scale = scale_of(&text[token.start..token.end]);
        if 11 <= scale {
            return Ok(Scale {
                unit: scale - 11,
                end: token.end,
            });
        }
        if 1 <= scale {
            return read_unit(text, token.end, scale - 1);
        }
    }
    Err(Refusal {
        number: 4,
        place: token.start,
    })
}

// TIMESCALE, if the token in hand is its keyword; 'without it, 1 ns'.
fn pass_scale(text: &[u8], hand: Result<Hand, Refusal>) -> Result<Scaled, Refusal>
    requires { InHand text.now hand }
    ensures { PassesScale text.now hand result }
{
    let hand = hand?;
    if hand.key != 52 {
        return Ok(Scaled { hand, unit: 6 });
    }
    let scale = read_scale(text, hand.token.end)?;
    Ok(Scaled {
        hand: take_next(text, scale.end)?,
        unit: scale.unit,
    })
}

// ---- the whole header

// What every file begins with: DELAYFILE, SDFVERSION with its text, and the token of the next entry.
fn open_file(text: &[u8], texts: &mut [usize; 14]) -> Result<Hand, Refusal>
    ensures { FileOpened text.now texts.old texts.new result }
{
    let outer = take_opened(text, 0);
    let inside = expect_key(text, outer, 41)?;
    let inner = take_opened(text, inside);
    let behind = expect_key(text, inner, 42)?;
    read_heading(text, behind, 0, texts)
}

// The header: its texts' places go to texts, two for each. Its unit is at most 10 ^ 17 femtoseconds, 100 s.
pub fn read_header(text: &[u8], texts: &mut [usize; 14]) -> Result<Head, Refusal>
    ensures { HeaderRead text.now texts.old texts.new result × IfOk result (λ head. head.unit ≤ 17) }
{
    let opened = open_file(text, texts);
    let design = pass_text(text, opened, 43, 1, texts);
    let date = pass_text(text, design, 44, 2, texts);
    let vendor = pass_text(text, date, 45, 3, texts);
    let program = pass_text(text, vendor, 46, 4, texts);
    let version = pass_text(text, program, 47, 5, texts);
    let divided = pass_divider(text, version)?;
    let voltage = pass_bare(text, Ok(divided.hand), 49);
    let process = pass_text(text, voltage, 50, 6, texts);
    let temperature = pass_bare(text, process, 51);
    let scaled = pass_scale(text, temperature)?;
    Ok(Head {
        hand: scaled.hand,
        slash: divided.slash,
        unit: scaled.unit,
    })
}
