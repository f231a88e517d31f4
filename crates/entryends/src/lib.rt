// The readers of an entry's ends: ports, with an edge or without.
#![tactic(auto)]

ghost use Rattle.std.specs.Prelude.{◌≤◌, length};
ghost use Rattle.tokens.specs.Stream.{placed};
ghost use Rattle.rules.specs.Promises.{ReadsPort, EdgeIs, ReadsEnd, ReadsEdged};

use grammar::{End, Span};
use nametokens::{name_fault, name_token};
use tokenforms::{Refusal, Token};
use tokens::token_from;
use values::{expect, wrong_at};
use words::edge_of;

// A port's name, where one stands alone.
pub fn read_port(text: &[u8], from: usize, slash: bool) -> Result<Span, Refusal>
    requires { from ≤ length text.now }
    ensures { ReadsPort text.now from slash result }
{
    let shaped = name_token(text, from, slash)?;
    name_fault(true, shaped)?;
    Ok(Span {
        from: shaped.token.start,
        to: shaped.token.end,
    })
}

// An edge right behind an opening bracket.
fn edge_here(text: &[u8], token: Token) -> Result<u8, Refusal>
    requires { (token.start ≤ token.end) × (token.end ≤ length text.now) }
    ensures { EdgeIs (placed text.now token.kind token.start token.end token.long) result }
{
    let word = &text[token.start..token.end];
    let place = token.start;
    let edge = edge_of(word);
    if token.kind != 7 || edge < 1 {
        let number = wrong_at(word, token.kind, true);
        return Err(Refusal { number, place });
    }
    if token.long {
        return Err(Refusal { number: 8, place });
    }
    Ok(edge)
}

// An end with an edge, behind its opening bracket.
fn read_edged(text: &[u8], from: usize, second: bool, slash: bool) -> Result<End, Refusal>
    requires { from ≤ length text.now }
    ensures { ReadsEdged text.now from second slash result }
{
    let token = token_from(text, from)?;
    let edge = edge_here(text, token)?;
    let port = read_port(text, token.end, slash)?;
    let end = expect(text, port.to, 3)?;
    Ok(End {
        edge,
        from: port.from,
        to: port.to,
        end,
    })
}

// An end that may carry an edge.
pub fn read_end(text: &[u8], from: usize, second: bool, slash: bool) -> Result<End, Refusal>
    requires { from ≤ length text.now }
    ensures { ReadsEnd text.now from second slash result }
{
    let shaped = name_token(text, from, slash)?;
    let token = shaped.token;
    if token.kind == 2 {
        return read_edged(text, token.end, second, slash);
    }
    name_fault(true, shaped)?;
    Ok(End {
        edge: 0,
        from: token.start,
        to: token.end,
        end: token.end,
    })
}
