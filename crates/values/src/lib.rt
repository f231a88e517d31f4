// The readers of values: numbers, triples, lists of them, empty brackets. Each contract is an equation between readings
// (rules/specs/Promises.antt). Every reader takes the text and the place from which to read. A struct of
// signed and unit would be no plainer: the one comes from an entry's kind, the other from the header, and they meet here alone.
#![tactic(auto)]

ghost use Rattle.std.specs.Prelude.{◌≡◌, None, Err, false, ◌≤◌, length};
ghost use Rattle.tokens.specs.Stream.{placed};
ghost use Rattle.grammar.specs.Ll.{non};
ghost use Rattle.grammar.specs.Grammar.{third};
ghost use Rattle.grammar.specs.Meaning.{wrongly};
ghost use Rattle.rules.specs.Promises.{refusal_of, NumberHere, Marked, Reads, ReadsValue, OpensValue, ReadsValues, OpensValues, list_end, list_of};
ghost use Rattle.values.specs.Parts.{Sees, any, LeadRead, FirstRead, MiddleRead};

use grammar::{ReadValue, Value, Values};
use numbershape::NotTime;
use times::{read_number, read_plain};
use tokenforms::{Refusal, Token};
use tokens::{mark_from, token_from};
use words::key_of;

// Empty brackets: nothing is supplied.
const NO_VALUE: Value = Value {
    min: None,
    typ: None,
    max: None,
};

// The refusal of a token that may not stand where it does: 5 for a word of the list right behind an opening bracket, else 4.
pub fn wrong_at(word: &[u8], kind: u8, opened: bool) -> u8
    ensures { result ≡ wrongly opened kind word.now }
{
    if opened && kind == 7 && 90 <= key_of(word) {
        return 5;
    }
    4
}

// The refusal of a word at a number's place that is no time; wrong is what it is if it has no number's shape.
fn number_refusal(why: NotTime, wrong: u8) -> u8
    ensures { result ≡ refusal_of (Err why) wrong }
{
    match why {
        NotTime::Fine => 6,
        NotTime::Beyond => 7,
        NotTime::Wrong => wrong,
    }
}

// A number where one is expected.
fn number_here(
    text: &[u8],
    token: Token,
    signed: bool,
    unit: u8,
    opened: bool,
) -> Result<i64, Refusal>
    requires { (token.start ≤ token.end) × (token.end ≤ length text.now) }
    ensures { NumberHere (placed text.now token.kind token.start token.end token.long) signed unit opened result }
{
    let word = &text[token.start..token.end];
    let place = token.start;
    if token.kind != 7 {
        let number = wrong_at(word, token.kind, opened);
        return Err(Refusal { number, place });
    }
    let z = match read_number(word, signed, unit) {
        Ok(z) => z,
        Err(why) => {
            let number = number_refusal(why, wrong_at(word, token.kind, opened));
            return Err(Refusal { number, place });
        }
    };
    if token.long {
        return Err(Refusal { number: 8, place });
    }
    Ok(z)
}

// A mark where it is expected: the place behind it.
pub fn expect(text: &[u8], from: usize, mark: u8) -> Result<usize, Refusal>
    requires { from ≤ length text.now }
    ensures { Marked text.now from mark result }
{
    let sign = mark_from(text, from);
    if sign.kind == mark && 2 <= mark {
        return Ok(sign.place + 1);
    }
    let token = token_from(text, sign.place)?;
    if token.kind == mark {
        return Ok(token.end);
    }
    Err(Refusal {
        number: 4,
        place: token.start,
    })
}

// The beginning of a value: all of it; or its first colon, and what stands before that.
#[derive(Clone, Copy)]
pub enum Lead {
    Whole(ReadValue),
    Colon { min: Option<i64>, end: usize },
}

// A value's second colon, and what stands between it and the first.
#[derive(Clone, Copy)]
pub struct Middle {
    pub typ: Option<i64>,
    pub end: usize,
}

// What stands where a number may: a time, or a closing bracket or a colon, of kind 3 or 4.
#[derive(Clone, Copy)]
pub enum Seen {
    Time { z: i64, end: usize },
    Mark { kind: u8, start: usize, end: usize },
}

// What stands where a number may, of whatever form.
fn see_token(
    text: &[u8],
    from: usize,
    signed: bool,
    unit: u8,
    opened: bool,
) -> Result<Seen, Refusal>
    requires { from ≤ length text.now }
    ensures { Sees text.now from signed unit opened result }
{
    let token = token_from(text, from)?;
    if token.kind == 3 || token.kind == 4 {
        return Ok(Seen::Mark {
            kind: token.kind,
            start: token.start,
            end: token.end,
        });
    }
    let z = number_here(text, token, signed, unit, opened)?;
    Ok(Seen::Time { z, end: token.end })
}

// What stands where a number may. Most numbers are plain, and read where they stand: they are words if no word goes on behind them.
fn see_number(
    text: &[u8],
    from: usize,
    signed: bool,
    unit: u8,
    opened: bool,
) -> Result<Seen, Refusal>
    requires { from ≤ length text.now }
    ensures { Sees text.now from signed unit opened result }
{
    let Some(plain) = read_plain(text, from, unit) else {
        return see_token(text, from, signed, unit, opened);
    };
    let long = 1024 < plain.end - from;
    if !long && scanning::ends_word(text, plain.end) {
        return Ok(Seen::Time {
            z: plain.femtoseconds,
            end: plain.end,
        });
    }
    see_token(text, from, signed, unit, opened)
}

// Behind a value's second colon. One of the three numbers must be supplied.
fn read_third(
    text: &[u8],
    from: usize,
    signed: bool,
    unit: u8,
    min: Option<i64>,
    typ: Option<i64>,
) -> Result<ReadValue, Refusal>
    requires { from ≤ length text.now }
    ensures { Reads text.now from (non (third (any min typ) signed)) false (record { min = min; typ = typ; max = None }) unit result }
{
    let value = Value {
        min,
        typ,
        max: None,
    };
    match see_number(text, from, signed, unit, false)? {
        Seen::Mark { kind, start, end } => {
            if kind == 4 || typ.or(min).is_none() {
                return Err(Refusal {
                    number: 4,
                    place: start,
                });
            }
            Ok(ReadValue { value, end })
        }
        Seen::Time { z, end } => {
            let end = expect(text, end, 3)?;
            let value = Value {
                max: Some(z),
                ..value
            };
            Ok(ReadValue { value, end })
        }
    }
}

// Behind a value's first colon.
fn read_second(text: &[u8], from: usize, signed: bool, unit: u8) -> Result<Middle, Refusal>
    requires { from ≤ length text.now }
    ensures { MiddleRead text.now from signed unit result }
{
    let sign = mark_from(text, from);
    if sign.kind == 4 {
        return Ok(Middle {
            typ: None,
            end: sign.place + 1,
        });
    }
    match see_number(text, sign.place, signed, unit, false)? {
        Seen::Mark { kind, start, end } => {
            if kind == 4 {
                return Ok(Middle { typ: None, end });
            }
            Err(Refusal {
                number: 4,
                place: start,
            })
        }
        Seen::Time { z, end } => {
            let end = expect(text, end, 4)?;
            Ok(Middle { typ: Some(z), end })
        }
    }
}

// Behind a value's first number.
fn read_first(text: &[u8], from: usize, signed: bool, unit: u8, z: i64) -> Result<Lead, Refusal>
    requires { from ≤ length text.now }
    ensures { FirstRead text.now from signed unit z result }
{
    let token = token_from(text, from)?;
    let end = token.end;
    let min = Some(z);
    match token.kind {
        3 => Ok(Lead::Whole(ReadValue {
            value: Value {
                min,
                typ: min,
                max: min,
            },
            end,
        })),
        4 => Ok(Lead::Colon { min, end }),
        _ => Err(Refusal {
            number: 4,
            place: token.start,
        }),
    }
}

// The beginning of a value, behind its opening bracket.
fn read_lead(text: &[u8], from: usize, signed: bool, unit: u8) -> Result<Lead, Refusal>
    requires { from ≤ length text.now }
    ensures { LeadRead text.now from signed unit result }
{
    match see_number(text, from, signed, unit, true)? {
        Seen::Mark {
            kind,
            start: _,
            end,
        } => {
            if kind == 3 {
                return Ok(Lead::Whole(ReadValue {
                    value: NO_VALUE,
                    end,
                }));
            }
            Ok(Lead::Colon { min: None, end })
        }
        Seen::Time { z, end } => read_first(text, end, signed, unit, z),
    }
}

// A value, behind its opening bracket.
pub fn read_value(text: &[u8], from: usize, signed: bool, unit: u8) -> Result<ReadValue, Refusal>
    requires { from ≤ length text.now }
    ensures { ReadsValue text.now from signed unit result }
{
    match read_lead(text, from, signed, unit)? {
        Lead::Whole(read) => Ok(read),
        Lead::Colon { min, end } => {
            let middle = read_second(text, end, signed, unit)?;
            read_third(text, middle.end, signed, unit, min, middle.typ)
        }
    }
}

// A value with its opening bracket.
pub fn open_value(text: &[u8], from: usize, signed: bool, unit: u8) -> Result<ReadValue, Refusal>
    requires { from ≤ length text.now }
    ensures { OpensValue text.now from signed unit result }
{
    let inside = expect(text, from, 2)?;
    read_value(text, inside, signed, unit)
}

// One to six signed values, up to the closing bracket of their entry, behind the first one's opening bracket. Inlined, as is open_values: a call would copy
// the list on its way into the entry.
#[inline(always)]
pub fn read_values(text: &[u8], from: usize, unit: u8) -> Result<Values, Refusal>
    requires { from ≤ length text.now }
    ensures { ReadsValues text.now from unit (list_end result) (list_of result) }
{
    let first = read_value(text, from, true, unit)?;
    let mut list = [NO_VALUE; 6];
    list[0] = first.value;
    let mut count = 1;
    let mut p = first.end;
    // No `for`: where the next value begins, and whether there is one, shows only when this one is read.
    loop {
        let token = token_from(text, p)?;
        if token.kind == 3 {
            return Ok(Values {
                list,
                count,
                end: token.end,
            });
        }
        if token.kind != 2 || 6 <= count {
            return Err(Refusal {
                number: 4,
                place: token.start,
            });
        }
        let next = read_value(text, token.end, true, unit)?;
        list[count] = next.value;
        count += 1;
        p = next.end;
    }
}

// One to six signed values, with the first one's opening bracket.
#[inline(always)]
pub fn open_values(text: &[u8], from: usize, unit: u8) -> Result<Values, Refusal>
    requires { from ≤ length text.now }
    ensures { OpensValues text.now from unit (list_end result) (list_of result) }
{
    let inside = expect(text, from, 2)?;
    read_values(text, inside, unit)
}
