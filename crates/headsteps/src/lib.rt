// The readers of a header's parts: brackets, keywords, quoted texts, triples of numbers, the divider. Each contract is an equation between
// readings (specs/Steps.antt).
#![tactic(auto)]

ghost use Rattle.std.specs.Prelude.{true, false, [], ◌∷◌, ◌≤◌, length};
ghost use Rattle.tokens.specs.Stream.{placed};
ghost use Rattle.grammar.specs.Grammar.{⟨, ⟩, bare, bare1, bare2, bare3};
ghost use Rattle.rules.specs.Promises.{InHand};
ghost use Rattle.headsteps.specs.Steps.{Takes, KeyRead, TextRead, HeadingRead, NumberShape, Skips, DividerRead};
ghost use Rattle.headsteps.specs.Steps.{IsText, IsBare, Passes, PassesBare, PassesDivider};

pub mod scales;

use grammar::{Hand, Span};
use numbershape::is_number;
use tokenforms::{Refusal, Token};
use tokens::{text_from, token_from};
use values::{expect, wrong_at};
use words::{divider_of, key_of};

// What DIVIDER says: whether it is /; and the token in hand behind it.
#[derive(Clone, Copy)]
pub struct Divided {
    pub hand: Hand,
    pub slash: bool,
}

// The token right behind an opening bracket that ends at from.
pub fn take(text: &[u8], from: usize) -> Result<Hand, Refusal>
    requires { from ≤ length text.now }
    ensures { Takes text.now from [] true result }
{
    let token = token_from(text, from)?;
    let key = if token.kind == 7 {
        key_of(&text[token.start..token.end])
    } else {
        0
    };
    Ok(Hand { from, token, key })
}

// An opening bracket, and the token behind it.
pub fn take_opened(text: &[u8], from: usize) -> Result<Hand, Refusal>
    requires { from ≤ length text.now }
    ensures { Takes text.now from (⟨ ∷ []) false result }
{
    let inside = expect(text, from, 2)?;
    take(text, inside)
}

// A closing bracket, the next opening one, and the token behind it.
pub fn take_next(text: &[u8], from: usize) -> Result<Hand, Refusal>
    requires { from ≤ length text.now }
    ensures { Takes text.now from (⟩ ∷ ⟨ ∷ []) false result }
{
    let behind = expect(text, from, 3)?;
    take_opened(text, behind)
}

// The keyword of this number, where the token in hand has to be it: the place behind it.
pub fn expect_key(text: &[u8], hand: Result<Hand, Refusal>, n: u8) -> Result<usize, Refusal>
    requires { InHand text.now hand × (1 ≤ n) }
    ensures { KeyRead text.now hand n result }
{
    let hand = hand?;
    let token = hand.token;
    if hand.key == n {
        return Ok(token.end);
    }
    Err(Refusal {
        number: wrong_at(&text[token.start..token.end], token.kind, true),
        place: token.start,
    })
}

// A quoted string.
pub fn read_text(text: &[u8], from: usize) -> Result<Span, Refusal>
    requires { from ≤ length text.now }
    ensures { TextRead text.now from result }
{
    let token = text_from(text, from)?;
    let place = token.start;
    if token.kind != 6 {
        return Err(Refusal { number: 4, place });
    }
    if token.long {
        return Err(Refusal { number: 8, place });
    }
    Ok(Span {
        from: place,
        to: token.end,
    })
}

// The header's text of this number, behind its keyword, and the token of the next entry. The places between the quotes go to texts.
pub fn read_heading(
    text: &[u8],
    from: usize,
    which: usize,
    texts: &mut [usize; 14],
) -> Result<Hand, Refusal>
    requires { (from ≤ length text.now) × (which ≤ 6) }
    ensures { HeadingRead text.now from which texts.old texts.new result }
{
    let name = read_text(text, from)?;
    let hand = take_next(text, name.to)?;
    texts[2 * which] = name.from + 1;
    texts[2 * which + 1] = name.to - 1;
    Ok(hand)
}

// An entry with a text, if the token in hand is its keyword, n.
pub fn pass_text(
    text: &[u8],
    hand: Result<Hand, Refusal>,
    n: u8,
    which: usize,
    texts: &mut [usize; 14],
) -> Result<Hand, Refusal>
    requires { InHand text.now hand × IsText n which × (1 ≤ n) × (which ≤ 6) }
    ensures { Passes text.now n hand texts.old result texts.new }
{
    let hand = hand?;
    if hand.key == n {
        return read_heading(text, hand.token.end, which, texts);
    }
    Ok(hand)
}

// The refusal, unless the token is a number.
fn number_shape(text: &[u8], token: Token) -> Result<(), Refusal>
    requires { (token.start ≤ token.end) × (token.end ≤ length text.now) }
    ensures { NumberShape (placed text.now token.kind token.start token.end token.long) result }
{
    let place = token.start;
    if token.kind != 7 || !is_number(&text[place..token.end], true) {
        return Err(Refusal { number: 4, place });
    }
    if token.long {
        return Err(Refusal { number: 8, place });
    }
    Ok(())
}

// Behind its second colon; some: whether a number stands before.
fn read_bare3(text: &[u8], from: usize, some: bool) -> Result<usize, Refusal>
    requires { from ≤ length text.now }
    ensures { Skips text.now from (bare3 some) result }
{
    let token = token_from(text, from)?;
    if token.kind == 3 {
        if some {
            return Ok(token.end);
        }
        return Err(Refusal {
            number: 4,
            place: token.start,
        });
    }
    number_shape(text, token)?;
    expect(text, token.end, 3)
}

// Behind its first colon.
fn read_bare2(text: &[u8], from: usize, some: bool) -> Result<usize, Refusal>
    requires { from ≤ length text.now }
    ensures { Skips text.now from (bare2 some) result }
{
    let token = token_from(text, from)?;
    if token.kind == 4 {
        return read_bare3(text, token.end, some);
    }
    number_shape(text, token)?;
    let behind = expect(text, token.end, 4)?;
    read_bare3(text, behind, true)
}

// Behind its first number.
fn read_bare1(text: &[u8], from: usize) -> Result<usize, Refusal>
    requires { from ≤ length text.now }
    ensures { Skips text.now from bare1 result }
{
    let token = token_from(text, from)?;
    match token.kind {
        3 => Ok(token.end),
        4 => read_bare2(text, token.end, true),
        _ => Err(Refusal {
            number: 4,
            place: token.start,
        }),
    }
}

// A bare number or triple, behind its entry's keyword.
fn read_bare(text: &[u8], from: usize) -> Result<usize, Refusal>
    requires { from ≤ length text.now }
    ensures { Skips text.now from bare result }
{
    let token = token_from(text, from)?;
    if token.kind == 4 {
        return read_bare2(text, token.end, false);
    }
    number_shape(text, token)?;
    read_bare1(text, token.end)
}

// An entry with a bare number or triple, if the token in hand is its keyword, n.
pub fn pass_bare(text: &[u8], hand: Result<Hand, Refusal>, n: u8) -> Result<Hand, Refusal>
    requires { InHand text.now hand × IsBare n × (1 ≤ n) }
    ensures { PassesBare text.now n hand result }
{
    let hand = hand?;
    if hand.key == n {
        let behind = read_bare(text, hand.token.end)?;
        return take_opened(text, behind);
    }
    Ok(hand)
}

// Behind its keyword.
fn read_divider(text: &[u8], from: usize) -> Result<Divided, Refusal>
    requires { from ≤ length text.now }
    ensures { DividerRead text.now from result }
{
    let token = token_from(text, from)?;
    if token.kind == 7 {
        let divider = divider_of(&text[token.start..token.end]);
        if 1 <= divider {
            let hand = take_next(text, token.end)?;
            return Ok(Divided {
                hand,
                slash: divider == 2,
            });
        }
    }
    Err(Refusal {
        number: 4,
        place: token.start,
    })
}

// DIVIDER, if the token in hand is its keyword; without it the divider is the dot.
pub fn pass_divider(text: &[u8], hand: Result<Hand, Refusal>) -> Result<Divided, Refusal>
    requires { InHand text.now hand }
    ensures { PassesDivider text.now hand result }
{
    let hand = hand?;
    if hand.key == 48 {
        return read_divider(text, hand.token.end);
    }
    Ok(Divided { hand, slash: false })
}
