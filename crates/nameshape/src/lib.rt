// The shape of names and of quoted texts (document 01, 'Bytes and words').
#![tactic(auto)]

ghost use Rattle.std.specs.Prelude.{◌≡◌, true, false, ◌≤◌, eqb, length};
ghost use Rattle.classes.specs.Choice.{pick};
ghost use Rattle.nameshape.specs.Shape.{is_name_byte, is_escapable, escapes, may_follow, divider, is_path, is_port, is_text};
ghost use Rattle.nameshape.specs.Shape.{body_next, bracket_next, name_next, name_run, plain_run, may_end};

use classes::{is_digit, is_legal, is_letter, is_within};

// Where a reader of a name's bytes stands.
const START: u8 = 0; // before a component's first byte

pub const BODY: u8 = 1; // in a component

const ESCAPE: u8 = 2; // behind a backslash

const BRACKET: u8 = 3; // behind `[`

const INDEX: u8 = 4; // in n

const COLON: u8 = 5; // behind `:`

const SECOND: u8 = 6; // in the second n

const INDEXED: u8 = 7; // behind the `]` of `[n]`

const RANGED: u8 = 8; // behind the `]` of `[n:n]`

pub const WRONG: u8 = 9; // no name goes on like this

// A letter, a digit, `_` or `$`.
#[tactic(auto, unfolding(crate::specs::Shape::is_name_byte))]
pub fn is_name_byte(byte: u8) -> bool
    ensures { result ≡ is_name_byte byte }
{
    is_letter(byte) || is_digit(byte) || byte == b'_' || byte == b'$'
}

#[tactic(auto, unfolding(crate::specs::Shape::is_escapable))]
fn is_escapable(byte: u8) -> bool
    ensures { result ≡ is_escapable byte }
{
    is_within(0x21, 0x7E, byte)
}

// The byte of the divider: `/` or `.`.
#[tactic(auto, unfolding(crate::specs::Shape::divider))]
pub fn divider_of(slash: bool) -> u8
    ensures { result ≡ divider slash }
{
    if slash { b'/' } else { b'.' }
}

#[tactic(auto, unfolding(crate::specs::Shape::body_next))]
fn body_next(slash: bool, state: u8, byte: u8) -> u8
    ensures { result ≡ body_next slash state byte }
{
    if is_name_byte(byte) {
        return BODY;
    }
    if byte == b'\\' {
        return ESCAPE;
    }
    if state == START {
        return WRONG;
    }
    if byte == divider_of(slash) {
        return START;
    }
    if byte == b'[' { BRACKET } else { WRONG }
}

#[tactic(auto, unfolding(crate::specs::Shape::bracket_next))]
fn bracket_next(state: u8, byte: u8) -> u8
    ensures { result ≡ bracket_next state byte }
{
    if is_digit(byte) {
        return if matches!(state, BRACKET | INDEX) {
            INDEX
        } else {
            SECOND
        };
    }
    match (state, byte) {
        (INDEX, b']') => INDEXED,
        (INDEX, b':') => COLON,
        (SECOND, b']') => RANGED,
        _ => WRONG,
    }
}

#[tactic(auto, unfolding(crate::specs::Shape::name_next))]
fn name_next(slash: bool, state: u8, byte: u8) -> u8
    ensures { result ≡ name_next slash state byte }
{
    // Most bytes are met here, so this is asked first.
    if state <= BODY {
        return body_next(slash, state, byte);
    }
    match state {
        ESCAPE if is_escapable(byte) => BODY,
        BRACKET | INDEX | COLON | SECOND => bracket_next(state, byte),
        INDEXED if byte == divider_of(slash) => START,
        _ => WRONG,
    }
}

// How many letters, digits, `_` and `$` a word begins with: most words are nothing else.
fn plain_run(word: &[u8]) -> usize
    ensures { (result ≡ plain_run word.now) × (result ≤ length word.now) }
{
    for (i, &byte) in word.iter().enumerate() {
        if !is_name_byte(byte) {
            return i;
        }
    }
    word.len()
}

// Where a reader stands behind n of them.
fn state_behind(n: usize) -> u8
    ensures { result ≡ pick (eqb n 0) 0 1 }
{
    if n == 0 { START } else { BODY }
}

// Where a reader stands behind a part of a word, who stood there before it.
#[tactic(auto, using(crate::specs::Shape::run_turn, crate::specs::Shape::run_end))]
pub fn run_on(part: &[u8], slash: bool, before: u8) -> u8
    ensures { result ≡ name_run slash before part.now }
{
    let mut state = before;
    for &byte in part {
        state = name_next(slash, state, byte);
    }
    state
}

// Where a reader of the whole word stands.
pub fn name_run(word: &[u8], slash: bool) -> u8
    ensures { result ≡ name_run slash 0 word.now }
{
    let n = plain_run(word);
    run_on(&word[n..], slash, state_behind(n))
}

#[tactic(auto, unfolding(crate::specs::Shape::may_end))]
pub fn may_end(port: bool, state: u8) -> bool
    ensures { result ≡ may_end port state }
{
    matches!(state, BODY | INDEXED) || (state == RANGED && port)
}

// Whether the word is an instance's path, with the divider `/` or `.`.
#[tactic(auto, unfolding(crate::specs::Shape::is_path))]
pub fn is_path(word: &[u8], slash: bool) -> bool
    ensures { result ≡ is_path slash word.now }
{
    may_end(false, name_run(word, slash))
}

// Whether the word is a port's name, with the divider `/` or `.`.
#[tactic(auto, unfolding(crate::specs::Shape::is_port))]
pub fn is_port(word: &[u8], slash: bool) -> bool
    ensures { result ≡ is_port slash word.now }
{
    may_end(true, name_run(word, slash))
}

// Whether a backslash has the next byte escaped.
#[tactic(auto, unfolding(crate::specs::Shape::escapes))]
pub fn escape(escaped: bool, byte: u8) -> bool
    ensures { result ≡ escapes escaped byte }
{
    !escaped && byte == b'\\'
}

#[tactic(auto, unfolding(crate::specs::Shape::may_follow))]
fn may_follow(escaped: bool, byte: u8) -> bool
    ensures { result ≡ may_follow escaped byte }
{
    is_legal(byte) && (escaped || byte != b'"')
}

// Whether the text may stand between two quotes.
#[tactic(auto, using(crate::specs::Shape::text_turn, crate::specs::Shape::text_end), unfolding(crate::specs::Shape::is_text))]
pub fn is_text(text: &[u8]) -> bool
    ensures { result ≡ is_text text.now }
{
    let mut escaped = false;
    for &byte in text {
        if !may_follow(escaped, byte) {
            return false;
        }
        escaped = escape(escaped, byte);
    }
    !escaped
}
