// Tokens where a name may stand: a word's shape as a name is judged while the word is scanned.
#![tactic(auto)]

ghost use Rattle.std.specs.Prelude.{◌≡◌, ◌≤◌, length};
ghost use Rattle.nametokens.specs.Shaped.{shape_of, name_fault, InName, ShapedAt};

use nameshape::{BODY, WRONG, divider_of, is_name_byte, may_end, name_run, run_on};
use scanning::{peek, white_end, word_end};
use tokenforms::{Refusal, Token};
use tokens::token_from;

// A token, and where a reader of names stands behind it.
#[derive(Clone, Copy)]
pub struct Shaped {
    pub token: Token,
    pub state: u8,
}

// Past the bytes of components and the dividers between them, from inside a component: most names are nothing else.
fn plain_name(text: &[u8], from: usize, slash: bool) -> usize
    requires { from ≤ length text.now }
    ensures { InName text.now slash from result }
{
    let divider = divider_of(slash);
    let mut i = from;
    // No `for`: a divider and the byte behind it are passed together.
    while i < text.len() {
        let byte = text[i];
        if is_name_byte(byte) {
            i += 1;
        } else {
            if byte != divider {
                return i;
            }
            if !is_name_byte(peek(text, i + 1)) {
                return i;
            }
            i += 2;
        }
    }
    i
}

// Where a reader of names stands behind a token.
fn shape_of(text: &[u8], token: Token, slash: bool) -> u8
    requires { (token.start ≤ token.end) × (token.end ≤ length text.now) }
    ensures { result ≡ shape_of slash text.now token }
{
    if token.kind == 7 {
        return name_run(&text[token.start..token.end], slash);
    }
    WRONG
}

// The token from a place on, of whatever form, and its shape.
fn any_token(text: &[u8], from: usize, slash: bool) -> Result<Shaped, Refusal>
    requires { from ≤ length text.now }
    ensures { ShapedAt slash text.now from result }
{
    let token = token_from(text, from)?;
    Ok(Shaped {
        token,
        state: shape_of(text, token, slash),
    })
}

// The token from a place on, and its shape: as a rule a word of nothing but components and dividers.
pub fn name_token(text: &[u8], from: usize, slash: bool) -> Result<Shaped, Refusal>
    requires { from ≤ length text.now }
    ensures { ShapedAt slash text.now from result }
{
    let start = white_end(text, from);
    if !is_name_byte(peek(text, start)) {
        return any_token(text, start, slash);
    }
    let i = plain_name(text, start + 1, slash);
    let end = word_end(text, i);
    Ok(Shaped {
        token: Token {
            kind: 7,
            start,
            end,
            long: 1024 < end - start,
        },
        state: run_on(&text[i..end], slash, BODY),
    })
}

// The refusal, unless the token is a port's name (or an instance's path) that is not too long.
pub fn name_fault(port: bool, shaped: Shaped) -> Result<(), Refusal>
    ensures { result ≡ name_fault port shaped }
{
    let place = shaped.token.start;
    if !may_end(port, shaped.state) {
        return Err(Refusal { number: 4, place });
    }
    if shaped.token.long {
        return Err(Refusal { number: 8, place });
    }
    Ok(())
}
