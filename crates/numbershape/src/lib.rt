// The shape of a number, and what its digits make (document 01, 'Numbers and times').
#![tactic(auto)]

ghost use Rattle.std.specs.Prelude.{◌≡◌, ◌+◌, ◌-◌, ◌*◌, ◌≤◌, ◌<◌, min, eqb, length, drop, IfSome};
ghost use Rattle.classes.specs.Choice.{and};
ghost use Rattle.numbershape.specs.Shape.{first, run, signs, lead, pointed, is_number};
ghost use Rattle.numbershape.specs.Places.{power_at, found};
ghost use Rattle.numbershape.specs.Steps.{stop, start};
ghost use Rattle.numbershape.specs.Scans.{Scans};

use classes::is_digit;

// One more than the 10^15 femtoseconds of the longest time: where numbers are stopped, since all beyond are alike.
pub const STOP: u64 = 1_000_000_000_000_001;

// Why a word at a number's place is no time in femtoseconds, within 10^15 either way.
#[derive(Clone, Copy, Debug, PartialEq, Eq)]
pub enum NotTime {
    // Finer than a femtosecond (refusal 6).
    Fine,
    // Whole, but beyond 10^15 (7).
    Beyond,
    // No number at all (4).
    Wrong,
}

// A run of digits: where it ends, and the number it makes of the one before it, stopped at 10^15 + 1.
#[derive(Clone, Copy)]
pub struct Scanned {
    pub end: usize,
    pub value: u64,
}

// Where a number's parts stand in its word: digits from `start` to `point`, behind a point to `end`, the exponent's from `power` on.
#[derive(Clone, Copy)]
pub struct Parts {
    pub minus: bool,
    pub start: usize,
    pub point: usize,
    pub end: usize,
    pub below: bool,
    pub power: usize,
}

// An exponent that goes on to the word's end: its sign, and where its digits start.
#[derive(Clone, Copy)]
pub struct Power {
    pub below: bool,
    pub power: usize,
}

// The digits read: their number, stopped at 10^15 + 1; how many more are to be kept; whether one past those is not 0.
#[derive(Clone, Copy)]
pub struct Digits {
    pub value: u64,
    pub left: usize,
    pub fine: bool,
}

// A digit's value.
pub fn digit(byte: u8) -> u64
    ensures { (result ≡ byte - 48) × (result < 256) }
{
    u64::from(byte.saturating_sub(b'0'))
}

// One digit more, stopped at 10^15 + 1.
pub fn put(value: u64, digit: u64) -> u64
    requires { (value ≤ stop) × (digit < 256) }
    ensures { (result ≡ min (value * 10 + digit) stop) × (result ≤ stop) }
{
    (value * 10 + digit).min(STOP)
}

// The digits from a place on, behind those that make `base`.
pub fn scan_digits(word: &[u8], from: usize, base: u64) -> Scanned
    requires { (from ≤ length word.now) × (base ≤ stop) }
    ensures { Scans word.now from base result }
{
    let mut value = base;
    for i in from..word.len() {
        let byte = word[i];
        if !is_digit(byte) {
            return Scanned { end: i, value };
        }
        value = put(value, digit(byte));
    }
    Scanned {
        end: word.len(),
        value,
    }
}

// How many digits stand from a place on.
fn count_digits(word: &[u8], from: usize) -> usize
    requires { from ≤ length word.now }
    ensures { (result ≡ run (drop from word.now)) × (from + result ≤ length word.now) }
{
    scan_digits(word, from, 0).end - from
}

// How many signs stand at a place: 1, or 0.
fn count_signs(word: &[u8], from: usize) -> usize
    requires { from ≤ length word.now }
    ensures { (result ≡ signs (drop from word.now)) × (from + result ≤ length word.now) }
{
    match word.get(from) {
        Some(b'+' | b'-') => 1,
        _ => 0,
    }
}

// The leading sign's length, in a signed place.
pub fn count_lead(word: &[u8], signed: bool) -> usize
    ensures { (result ≡ lead signed word.now) × (result ≤ length word.now) }
{
    if signed { count_signs(word, 0) } else { 0 }
}

// Whether a signed place begins with a minus.
pub fn is_minus(word: &[u8], signed: bool) -> bool
    ensures { result ≡ and signed (eqb (first word.now) 45) }
{
    signed && word.first() == Some(&b'-')
}

// How many bytes a point and its digits take: 0 where there is no point, 1 where it has no digits.
fn count_pointed(word: &[u8], from: usize) -> usize
    requires { from ≤ length word.now }
    ensures { (result ≡ pointed (drop from word.now)) × (from + result ≤ length word.now) }
{
    match word.get(from) {
        Some(b'.') => 1 + count_digits(word, from + 1),
        _ => 0,
    }
}

// The exponent, between the mantissa's end and the word's.
fn find_power(word: &[u8], from: usize) -> Option<Power>
    requires { from ≤ length word.now }
    ensures power { result ≡ power_at word.now from }
    ensures within { IfSome result (λ p. p.power ≤ length word.now) }
{
    let Some(&mark) = word.get(from) else {
        return Some(Power {
            below: false,
            power: from,
        });
    };
    if mark != b'e' {
        return None;
    }
    let next = from + 1;
    let power = next + count_signs(word, next);
    let digits = count_digits(word, power);
    if digits == 0 || power + digits < word.len() {
        return None;
    }
    Some(Power {
        below: word[next] == b'-',
        power,
    })
}

// Where the parts of a number stand, if the word has its shape.
pub fn find_parts(word: &[u8], signed: bool) -> Option<Parts>
    ensures parts { result ≡ found signed word.now }
    ensures within { IfSome result (λ p. (p.start ≤ p.point) × (p.point ≤ p.end) × (p.end ≤ length word.now) × (p.power ≤ length word.now)) }
{
    let start = count_lead(word, signed);
    let whole = count_digits(word, start);
    if whole == 0 {
        return None;
    }
    let point = start + whole;
    let pointed = count_pointed(word, point);
    if pointed == 1 {
        return None;
    }
    let end = point + pointed;
    let minus = is_minus(word, signed);
    let Power { below, power } = find_power(word, end)?;
    Some(Parts {
        minus,
        start,
        point,
        end,
        below,
        power,
    })
}

// Whether a word has a number's shape, in a signed place or another.
pub fn is_number(word: &[u8], signed: bool) -> bool
    ensures { result ≡ is_number signed word.now }
{
    find_parts(word, signed).is_some()
}
