// The forms of tokens (document 01, 'Bytes and words'): quoted texts, comments, and which token stands at a place.
#![tactic(auto)]

ghost use Rattle.std.specs.Prelude.{◌≡◌, Ok, false, ◌+◌, ◌≤◌, ◌<◌, length, drop};
ghost use Rattle.scanning.specs.Scan.{scan_st};
ghost use Rattle.scanning.specs.Machines.{word_end, text_halts, text_goes, block_halts};
ghost use Rattle.tokenforms.specs.Tokens.{Got, token_here, string_at, token_at, spoilt, block_end};

use classes::{class_of, mark_of};

// A refusal: the paper's number, and the place of the byte or the word that it is about.
#[derive(Clone, Copy)]
pub struct Refusal {
    pub number: u8,
    pub place: usize,
}

// A token: the kind is its class for a mark (2 to 5) and for a byte that no rule allows (12), 6 for a string, 7 for a word.
// Long: a word, or a string's content, of over 1,024 bytes.
// Where no token stands, the refusal is 2 or 3 with its place, or 4 at the text's end.
#[derive(Clone, Copy)]
pub struct Token {
    pub kind: u8,
    pub start: usize,
    pub end: usize,
    pub long: bool,
}

// Where a string's content stops, and in which state.
#[derive(Clone, Copy)]
pub struct Content {
    pub place: usize,
    pub state: u8,
}

// The first illegal byte of a string's content, or the quote that closes it.
fn text_end(text: &[u8], from: usize) -> Content
    requires { from ≤ length text.now }
    ensures { (result.place ≡ spoilt text.now from) × (result.state ≡ scan_st text_halts text_goes 0 (drop from text.now))
        × (result.place ≤ length text.now) × (from ≤ result.place) }
{
    let mut state: u8 = 0;
    for i in from..text.len() {
        let byte = text[i];
        if scanning::text_stop(state, byte) {
            return Content { place: i, state };
        }
        state = scanning::text_next(state, byte);
    }
    Content {
        place: text.len(),
        state,
    }
}

fn block_stop(byte: u8, behind: u8) -> bool
    ensures { result ≡ block_halts 0 byte behind }
{
    byte == b'*' && behind == b'/'
}

fn block_end(text: &[u8], from: usize) -> usize
    requires { from ≤ length text.now }
    ensures { result ≡ block_end text.now from }
{
    for i in from..text.len() {
        let behind = scanning::peek(text, i + 1);
        if block_stop(text[i], behind) {
            return i;
        }
    }
    text.len()
}

// The string whose opening quote stands at i.
pub fn string_at(text: &[u8], i: usize) -> Result<Token, Refusal>
    requires { i < length text.now }
    ensures { result ≡ string_at text.now i }
{
    let content = text_end(text, i + 1);
    let e = content.place;
    let state = content.state;
    let f = scanning::close_end(text, e, state);
    if text.len() <= f {
        return Err(Refusal {
            number: 3,
            place: i,
        });
    }
    let long = 1024 < f - (i + 1);
    if e < f {
        return Ok(Token {
            kind: 6,
            start: i,
            end: e,
            long,
        });
    }
    Ok(Token {
        kind: 6,
        start: i,
        end: f + 1,
        long,
    })
}

// A token of one byte.
fn single(kind: u8, i: usize) -> Token
    requires { i < 18446744073709551615 }
    ensures { Ok result ≡ Got kind i (i + 1) false }
{
    Token {
        kind,
        start: i,
        end: i + 1,
        long: false,
    }
}

// What stands at i, where no word begins.
fn other_here(text: &[u8], i: usize) -> Result<Token, Refusal>
    requires { (i < length text.now) × (word_end text.now i ≤ i) }
    ensures { result ≡ token_here text.now i }
{
    let class = class_of(text[i]);
    if class == 0 {
        return Err(Refusal {
            number: 2,
            place: i,
        });
    }
    if class <= 5 {
        return Ok(single(class, i));
    }
    if class == 6 {
        return string_at(text, i);
    }
    if class == 12 {
        return Ok(single(class, i));
    }
    Err(Refusal {
        number: 2,
        place: i,
    })
}

// What stands at i, where no white space and no comment begins: as a rule a mark or a word.
fn token_here(text: &[u8], i: usize) -> Result<Token, Refusal>
    requires { i ≤ length text.now }
    ensures { result ≡ token_here text.now i }
{
    if text.len() <= i {
        return Err(Refusal {
            number: 4,
            place: i,
        });
    }
    let mark = mark_of(text[i]);
    if mark != 0 {
        return Ok(single(mark, i));
    }
    let e = scanning::word_end(text, i);
    if i < e {
        return Ok(Token {
            kind: 7,
            start: i,
            end: e,
            long: 1024 < e - i,
        });
    }
    other_here(text, i)
}

// The token from a place on, of whatever form.
pub fn token_any(text: &[u8], from: usize) -> Result<Token, Refusal>
    requires { from ≤ length text.now }
    ensures { result ≡ token_at text.now from }
{
    let skipped = scanning::skip_blank(text, from);
    let i = skipped.place;
    let blank = skipped.blank;
    let mode = blank.mode;
    let since = blank.since;
    if mode == 0 {
        return token_here(text, i);
    }
    if mode == 1 {
        if text.len() <= i {
            return Err(Refusal {
                number: 4,
                place: i,
            });
        }
        return Err(Refusal {
            number: 2,
            place: i,
        });
    }
    let e = block_end(text, i);
    if text.len() <= e {
        return Err(Refusal {
            number: 3,
            place: i - since,
        });
    }
    Err(Refusal {
        number: 2,
        place: i,
    })
}
