// The tokens of a text, one after the other (document 01, 'Bytes and words').
#![tactic(auto)]

ghost use Rattle.std.specs.Prelude.{◌≡◌, ◌+◌, ◌≤◌, ◌<◌, length};
ghost use Rattle.tokenforms.specs.Tokens.{token_at};
ghost use Rattle.tokens.specs.Stream.{stream, count, end_of};
ghost use Rattle.tokens.specs.Quick.{Signed};

use classes::{is_white, mark_of};
use scanning::{peek, white_end, word_end};
use tokenforms::{Refusal, Token, string_at, token_any};

// The token from a place on. Behind the text's end there is none: its end is met there, wherever that is.
pub fn next_token(text: &[u8], from: usize) -> Result<Token, Refusal>
    ensures { result ≡ token_at text.now from }
{
    if text.len() < from {
        return Err(Refusal {
            number: 4,
            place: from,
        });
    }
    token_from(text, from)
}

// The token from a place on, within the text: as a rule it is a mark or a word. Inlined, since most callers look at its kind and end alone, and the
// token need not be written then.
#[inline(always)]
pub fn token_from(text: &[u8], from: usize) -> Result<Token, Refusal>
    requires { from ≤ length text.now }
    ensures { result ≡ token_at text.now from }
{
    let sign = mark_from(text, from);
    let start = sign.place;
    if 2 <= sign.kind {
        return Ok(Token {
            kind: sign.kind,
            start,
            end: start + 1,
            long: false,
        });
    }
    let end = word_end(text, start);
    if start < end {
        return Ok(Token {
            kind: 7,
            start,
            end,
            long: 1024 < end - start,
        });
    }
    text_from(text, start)
}

// The token from a place on, where neither a mark nor a word is expected: as a rule it is a string.
pub fn text_from(text: &[u8], from: usize) -> Result<Token, Refusal>
    requires { from ≤ length text.now }
    ensures { result ≡ token_at text.now from }
{
    let start = white_end(text, from);
    if peek(text, start) == b'"' {
        return string_at(text, start);
    }
    token_any(text, start)
}

// Where the token from a place on ends. No token is made where it is a mark or a word.
fn token_end(text: &[u8], from: usize) -> Option<usize>
    requires { from ≤ length text.now }
    ensures { result ≡ end_of (token_at text.now from) }
{
    let sign = mark_from(text, from);
    let place = sign.place;
    if 2 <= sign.kind {
        return Some(place + 1);
    }
    let end = word_end(text, place);
    if place < end {
        return Some(end);
    }
    match text_from(text, place) {
        Ok(token) => Some(token.end),
        Err(_) => None,
    }
}

// How many tokens a text has before what ends them.
pub fn count_tokens(text: &[u8]) -> usize
    ensures { result ≡ count (stream text.now 0).toks }
{
    let mut from = 0;
    let mut n: usize = 0;
    while let Some(end) = token_end(text, from) {
        from = end;
        n += 1;
    }
    n
}

// The mark from a place on, or 0 where none is seen at once; and the place behind white space, from which the token is the same.
#[derive(Clone, Copy)]
pub struct Sign {
    pub kind: u8,
    pub place: usize,
}

pub fn mark_from(text: &[u8], from: usize) -> Sign
    requires { from ≤ length text.now }
    ensures { Signed text.now from result }
{
    for i in from..text.len() {
        let byte = text[i];
        if !is_white(byte) {
            return Sign {
                kind: mark_of(byte),
                place: i,
            };
        }
    }
    Sign {
        kind: 0,
        place: text.len(),
    }
}
