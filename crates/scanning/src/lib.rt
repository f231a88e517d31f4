// Small machines that scan a text: where a word ends, where blanks and comments end, where a quoted text ends.
#![tactic(auto)]

ghost use Rattle.std.specs.Prelude.{◌≡◌, ◌+◌, ◌≤◌, ◌<◌, eqb, length, get_or, drop};
ghost use Rattle.classes.specs.Classes.{class_of};
ghost use Rattle.scanning.specs.Scan.{scan_len};
ghost use Rattle.scanning.specs.Machines.{commences, word_halts, word_end, blank_stop, mode_next, since_next, text_stop, close_stop, text_next, text_goes, close_halts};
ghost use Rattle.scanning.specs.Runs.{WhiteTo, SkippedTo, commented, state_of, bracketed, width_of};

use classes::{class_of, is_legal, is_plain, is_white, is_within, mark_of};

// White space and comments: where in them one stands.
#[derive(Clone, Copy)]
pub struct Blank {
    pub mode: u8,
    pub since: usize,
}

// Where the white space and the comments from a place on end, and in which state.
#[derive(Clone, Copy)]
pub struct Skipped {
    pub place: usize,
    pub blank: Blank,
}

// The byte at i, or 0 past the end.
pub fn peek(text: &[u8], i: usize) -> u8
    ensures { result ≡ get_or text.now i 0 }
{
    if i < text.len() { text[i] } else { 0 }
}

// Whether a slash with this byte behind it starts a comment: // or /* .
fn starts_comment(behind: u8) -> bool
    ensures { result ≡ commences behind }
{
    behind == b'/' || behind == b'*'
}

// Whether a word ends before this byte, which is not plain. Only a slash and a backslash look at the byte behind them, which stands at next.
fn word_stop(text: &[u8], next: usize, inside: bool, byte: u8) -> bool
    requires { class_of byte ≡ 7 → ⊥ }
    ensures { result ≡ word_halts (state_of inside) byte (get_or text.now next 0) }
{
    match byte {
        b'/' => starts_comment(peek(text, next)),
        b'\\' => !is_within(0x21, 0x7E, peek(text, next)),
        b'[' | b']' => false,
        b':' => !inside,
        _ => true,
    }
}

// Whether a word is inside brackets behind this byte.
fn word_next(inside: bool, byte: u8) -> bool
    ensures { state_of result ≡ bracketed (state_of inside) byte }
{
    match byte {
        b'[' => true,
        b']' => false,
        _ => inside,
    }
}

// How many bytes a word takes: a backslash takes the next one along.
fn word_step(byte: u8) -> usize
    ensures { result ≡ width_of byte }
{
    if byte == b'\\' { 2 } else { 1 }
}

// Where the word from a place on ends. Most of its bytes are plain, and go on with it outside brackets and inside.
pub fn word_end(text: &[u8], from: usize) -> usize
    requires { from ≤ length text.now }
    ensures { (result ≡ word_end text.now from) × (result ≤ length text.now) × (from ≤ result) }
{
    let mut i = from;
    let mut inside = false;
    // (no `for`: a backslash takes two bytes)
    while i < text.len() {
        let byte = text[i];
        if is_plain(byte) {
            i += 1;
        } else {
            if word_stop(text, i + 1, inside, byte) {
                return i;
            }
            inside = word_next(inside, byte);
            i += word_step(byte);
        }
    }
    i
}

// Whether no word goes on from a place: as a rule a mark stands there, which is seen at once.
#[tactic(auto, using(crate::specs::RunLaws::mark_ends))]
pub fn ends_word(text: &[u8], place: usize) -> bool
    requires { place ≤ length text.now }
    ensures { result ≡ eqb (word_end text.now place) place }
{
    mark_of(peek(text, place)) != 0 || word_end(text, place) == place
}

#[tactic(auto, unfolding(crate::specs::Machines::blank_stop))]
fn blank_stop(mode: u8, class: u8, behind: u8) -> bool
    ensures { result ≡ blank_stop mode class behind }
{
    if class == 0 {
        return true;
    }
    if mode != 0 {
        return false;
    }
    match class {
        1 => false,
        8 => !starts_comment(behind),
        _ => true,
    }
}

#[tactic(auto, unfolding(crate::specs::Machines::mode_next))]
fn mode_next(mode: u8, class: u8, byte: u8, behind: u8) -> u8
    ensures { result ≡ mode_next mode class byte behind }
{
    match mode {
        0 => {
            if class != 8 {
                return 0;
            }
            if behind == b'/' { 1 } else { 2 }
        }
        1 => { if byte == b'\n' { 0 } else { 1 } }
        2 => 3,
        3 => {
            if byte != b'*' {
                return 3;
            }
            if behind == b'/' { 4 } else { 3 }
        }
        _ => 0,
    }
}

fn since_next(mode: u8, since: usize) -> usize
    requires { since < 18446744073709551615 }
    ensures { (result ≡ since_next mode since) × (result ≤ since + 1) }
{
    if mode == 0 { 0 } else { since + 1 }
}

// Past the white space from a place on: what follows is the same from there.
pub fn white_end(text: &[u8], from: usize) -> usize
    requires { from ≤ length text.now }
    ensures { WhiteTo text.now from result }
{
    for i in from..text.len() {
        if !is_white(text[i]) {
            return i;
        }
    }
    text.len()
}

// Whether a comment begins here.
fn comment_at(text: &[u8], i: usize) -> bool
    requires { i ≤ length text.now }
    ensures { result ≡ commented text.now i }
{
    peek(text, i) == b'/' && starts_comment(peek(text, i + 1))
}

// Past white space and comments from a place on, byte by byte. Not inlined: the loop keeps its numbers in registers then.
#[inline(never)]
fn skip_comments(text: &[u8], from: usize) -> Skipped
    requires { from ≤ length text.now }
    ensures { SkippedTo text.now from result }
{
    let mut mode: u8 = 0;
    let mut since: usize = 0;
    for i in from..text.len() {
        let byte = text[i];
        let class = class_of(byte);
        let behind = peek(text, i + 1);
        if blank_stop(mode, class, behind) {
            return Skipped {
                place: i,
                blank: Blank { mode, since },
            };
        }
        mode = mode_next(mode, class, byte, behind);
        since = since_next(mode, since);
    }
    Skipped {
        place: text.len(),
        blank: Blank { mode, since },
    }
}

// Past white space and comments from a place on. Where no comment begins, which is the rule, white space is all there is.
pub fn skip_blank(text: &[u8], from: usize) -> Skipped
    requires { from ≤ length text.now }
    ensures { SkippedTo text.now from result }
{
    let i = white_end(text, from);
    if comment_at(text, i) {
        return skip_comments(text, i);
    }
    Skipped {
        place: i,
        blank: Blank { mode: 0, since: 0 },
    }
}

#[tactic(auto, using(classes::specs::ClassLaws::quote_byte), unfolding(crate::specs::Machines::close_stop))]
fn close_stop(state: u8, byte: u8) -> bool
    ensures { result ≡ close_stop state (class_of byte) }
{
    state == 0 && byte == b'"'
}

#[tactic(auto, using(classes::specs::ClassLaws::legal_rule), unfolding(crate::specs::Machines::text_stop))]
pub fn text_stop(state: u8, byte: u8) -> bool
    ensures { result ≡ text_stop state (class_of byte) }
{
    !is_legal(byte) || close_stop(state, byte)
}

#[tactic(auto, using(classes::specs::ClassLaws::back_byte), unfolding(crate::specs::Machines::text_next))]
pub fn text_next(state: u8, byte: u8) -> u8
    ensures { result ≡ text_next state (class_of byte) }
{
    if state == 0 && byte == b'\\' { 1 } else { 0 }
}

// The quote that closes a string, from a place of its content on, with no regard to illegal bytes.
pub fn close_end(text: &[u8], from: usize, begin: u8) -> usize
    requires { from ≤ length text.now }
    ensures { (result ≡ from + scan_len close_halts text_goes begin (drop from text.now)) × (from ≤ result) }
{
    let mut state = begin;
    for i in from..text.len() {
        let byte = text[i];
        if close_stop(state, byte) {
            return i;
        }
        state = text_next(state, byte);
    }
    text.len()
}
