// A number's exact value in femtoseconds (document 01, 'Numbers and times').
#![tactic(auto)]

ghost use Rattle.std.specs.Prelude.{◌≡◌, ◌+◌, ◌-◌, ◌*◌, ◌^◌, ◌≤◌, ◌<◌, min, eqb, length, get_or, drop, IfSome};
ghost use Rattle.numbershape.specs.Shape.{digits_of};
ghost use Rattle.numbershape.specs.Value.{horner, at_most, exact, number_of};
ghost use Rattle.numbershape.specs.Fast.{Small};
ghost use Rattle.numbershape.specs.Steps.{stop, figures, step_of, fold, start, answer_of};
ghost use Rattle.times.specs.Standing.{time_to, plainly};
ghost use Rattle.times.specs.Plain.{plain_of};

use numbershape::{Digits, NotTime, STOP};

// Digits, with or without a point and digits behind it: their number, stopped at 10^15 + 1, how many stand behind the point, and where they end.
#[derive(Clone, Copy)]
struct Plain {
    value: u64,
    fraction: usize,
    end: usize,
}

// A time read where it stands, and where it ends.
#[derive(Clone, Copy, Debug, PartialEq, Eq)]
pub struct PlainTime {
    pub femtoseconds: i64,
    pub end: usize,
}

// One byte more of a mantissa: the point is passed over.
fn step(digits: Digits, byte: u8) -> Digits
    requires { digits.value ≤ stop }
    ensures { (result ≡ step_of digits byte) × (result.value ≤ stop) }
{
    if byte < b'0' {
        return digits;
    }
    if digits.left == 0 {
        return Digits {
            fine: digits.fine || byte != b'0',
            ..digits
        };
    }
    Digits {
        value: numbershape::put(digits.value, numbershape::digit(byte)),
        left: digits.left - 1,
        ..digits
    }
}

// The digits of a mantissa, of which so many are kept.
fn read_digits(text: &[u8], keep: usize) -> Digits
    ensures { (result ≡ fold step_of (start keep) text.now) × (result.value ≤ stop) }
{
    let mut digits = Digits {
        value: 0,
        left: keep,
        fine: false,
    };
    for &byte in text {
        digits = step(digits, byte);
    }
    digits
}

// 10^n, where n is small.
fn ten_to(n: usize) -> u64
    requires { n ≤ 6 }
    ensures { result ≡ 10 ^ n }
{
    match n {
        0 => 1,
        1 => 10,
        2 => 100,
        3 => 1_000,
        4 => 10_000,
        5 => 100_000,
        _ => 1_000_000,
    }
}

// value * 10^n, stopped at 10^15 + 1: as a rule one product that does not reach it; else at most 16 turns, whatever n is.
fn raise(value: u64, n: usize) -> u64
    requires { value ≤ stop }
    ensures { (result ≡ min (value * 10 ^ n) stop) × (result ≤ stop) }
{
    if value < 1_000_000_000 && n <= 6 {
        return value * ten_to(n);
    }
    if value == 0 {
        return 0;
    }
    let mut raised = value;
    for _ in 0..n {
        if STOP <= raised {
            return raised;
        }
        raised = numbershape::put(raised, 0);
    }
    raised
}

// Whole femtoseconds: a time, if they are not too many.
fn finish(minus: bool, value: u64) -> Result<i64, NotTime>
    ensures { result ≡ at_most minus value }
{
    if STOP <= value {
        return Err(NotTime::Beyond);
    }
    let time = value as i64;
    Ok(if minus { -time } else { time })
}

// What the digits that were kept come to, if all the others are 0.
fn finish_cut(minus: bool, digits: Digits) -> Result<i64, NotTime>
    ensures { result ≡ answer_of minus digits }
{
    if digits.fine {
        return Err(NotTime::Fine);
    }
    finish(minus, digits.value)
}

// The digits of a mantissa, of which there are n, times 10^up, over 10^down.
fn scaled(text: &[u8], minus: bool, n: usize, up: usize, down: usize) -> Result<i64, NotTime>
    requires { (n ≡ length (figures text.now)) × Small (figures text.now) }
    ensures { result ≡ exact minus (horner 0 (figures text.now)) up down }
{
    if down <= up {
        let digits = read_digits(text, n);
        return finish(minus, raise(digits.value, up - down));
    }
    let cut = down - up;
    finish_cut(minus, read_digits(text, n.saturating_sub(cut)))
}

// One digit more of an exponent, stopped at cap.
fn put_power(value: usize, digit: usize, cap: usize) -> usize
    ensures { result ≡ min (value * 10 + digit) cap }
{
    value.saturating_mul(10).saturating_add(digit).min(cap)
}

// The number that an exponent's digits make, stopped at cap.
fn read_power(digits: &[u8], cap: usize) -> usize
    ensures { result ≡ min (horner 0 (digits_of digits.now)) cap }
{
    let mut value = 0;
    for &byte in digits {
        value = put_power(value, numbershape::digit(byte) as usize, cap);
    }
    value
}

// How many digits stand behind the point, in a mantissa whose whole digits end at `point`.
fn count_fraction(point: usize, end: usize) -> usize
    ensures { result ≡ end - point - 1 }
{
    end.saturating_sub(point).saturating_sub(1)
}

// Any word: first where its parts stand, then its digits up to the femtosecond. The exponent is read up to a bound, beyond which the answer does
// not change any more.
fn read_any(word: &[u8], signed: bool, scale: u8) -> Result<i64, NotTime>
    ensures { result ≡ number_of signed scale word.now }
{
    let parts = numbershape::find_parts(word, signed).ok_or(NotTime::Wrong)?;
    let whole = parts.point - parts.start;
    let fraction = count_fraction(parts.point, parts.end);
    let unit = usize::from(scale);
    let mantissa = &word[parts.start..parts.end];
    let exponent = &word[parts.power..];
    if parts.below {
        let power = read_power(exponent, unit + whole + 1);
        return scaled(
            mantissa,
            parts.minus,
            whole + fraction,
            unit,
            fraction + power,
        );
    }
    let power = read_power(exponent, fraction + 16);
    scaled(
        mantissa,
        parts.minus,
        whole + fraction,
        unit + power,
        fraction,
    )
}

// Whether a point stands at a place.
fn is_point(text: &[u8], at: usize) -> bool
    ensures { result ≡ eqb (get_or text.now at 0) 46 }
{
    text.get(at) == Some(&b'.')
}

// Digits, with or without a point and digits behind it, from a place on and as far as they go.
fn scan_plain(text: &[u8], start: usize) -> Option<Plain>
    requires { start ≤ length text.now }
    ensures plain { result ≡ plain_of start (drop start text.now) }
    ensures within { IfSome result (λ p. (p.value ≤ stop) × (start ≤ p.end) × (p.end ≤ length text.now)) }
{
    let whole = numbershape::scan_digits(text, start, 0);
    let point = whole.end;
    if point == start {
        return None;
    }
    if !is_point(text, point) {
        return Some(Plain {
            value: whole.value,
            fraction: 0,
            end: point,
        });
    }
    let all = numbershape::scan_digits(text, point + 1, whole.value);
    let fraction = all.end - (point + 1);
    if fraction == 0 {
        return None;
    }
    Some(Plain {
        value: all.value,
        fraction,
        end: all.end,
    })
}

// What a word at a number's place is, with a time scale of 10^scale femtoseconds. Most words are plain, and no finer than the scale: they are
// read in one pass.
pub fn read_number(word: &[u8], signed: bool, scale: u8) -> Result<i64, NotTime>
    ensures { result ≡ number_of signed scale word.now }
{
    let start = numbershape::count_lead(word, signed);
    let unit = usize::from(scale);
    match scan_plain(word, start) {
        Some(plain) if word.len() <= plain.end && plain.fraction <= unit => finish(
            numbershape::is_minus(word, signed),
            raise(plain.value, unit - plain.fraction),
        ),
        _ => read_any(word, signed, scale),
    }
}

// A number's time, with where it ends.
fn time_to(end: usize, number: Result<i64, NotTime>) -> Option<PlainTime>
    ensures { result ≡ time_to end number }
{
    let femtoseconds = number.ok()?;
    Some(PlainTime { femtoseconds, end })
}

// The time that the digits and points from a place on write, all of them, with a time scale of 10^scale femtoseconds; None where they write none.
pub fn read_plain(text: &[u8], from: usize, scale: u8) -> Option<PlainTime>
    requires { from ≤ length text.now }
    ensures { result ≡ plainly scale text.now from }
{
    let Plain {
        value,
        fraction,
        end,
    } = scan_plain(text, from)?;
    if is_point(text, end) {
        return None;
    }
    let unit = usize::from(scale);
    if unit < fraction {
        return time_to(end, read_any(&text[from..end], false, scale));
    }
    time_to(end, finish(false, raise(value, unit - fraction)))
}
