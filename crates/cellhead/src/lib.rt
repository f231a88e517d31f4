// The reader of what stands at the head of a cell: its type and its instance.
#![tactic(auto)]

ghost use Rattle.std.specs.Prelude.{◌≤◌, length};
ghost use Rattle.cellhead.specs.Heads.{InstanceRead, PathBehind, HeadRead};

use headsteps::{expect_key, read_text, take_next, take_opened};
use nametokens::{name_fault, name_token};
use tokenforms::Refusal;
use values::expect;

// An instance's path: 0 the top level, 1 from .. to .., 2 '*'; and the place behind its closing bracket.
// The sort stays a number: it is that of grammar's Cell, which the C interface hands out.
#[derive(Clone, Copy)]
pub struct Instance {
    pub sort: u8,
    pub from: usize,
    pub to: usize,
    pub end: usize,
}

// A cell's type and path, and the place behind them.
#[derive(Clone, Copy)]
pub struct CellHead {
    pub typefrom: usize,
    pub typeto: usize,
    pub sort: u8,
    pub pathfrom: usize,
    pub pathto: usize,
    pub end: usize,
}

// The rest of INSTANCE: a path, nothing or '*', and the closing bracket.
fn read_instance(text: &[u8], from: usize, slash: bool) -> Result<Instance, Refusal>
    requires { from ≤ length text.now }
    ensures { InstanceRead text.now from slash result }
{
    let shaped = name_token(text, from, slash)?;
    let token = shaped.token;
    match token.kind {
        3 => Ok(Instance {
            sort: 0,
            from: 0,
            to: 0,
            end: token.end,
        }),
        5 => Ok(Instance {
            sort: 2,
            from: 0,
            to: 0,
            end: expect(text, token.end, 3)?,
        }),
        _ => {
            name_fault(false, shaped)?;
            Ok(Instance {
                sort: 1,
                from: token.start,
                to: token.end,
                end: expect(text, token.end, 3)?,
            })
        }
    }
}

// INSTANCE behind the type's text, and its path.
fn cell_path(text: &[u8], from: usize, slash: bool) -> Result<Instance, Refusal>
    requires { from ≤ length text.now }
    ensures { PathBehind text.now from slash result }
{
    let hand = take_next(text, from);
    let behind = expect_key(text, hand, 55)?;
    read_instance(text, behind, slash)
}

// A cell's type and path, behind its keyword.
pub fn cell_head(text: &[u8], from: usize, slash: bool) -> Result<CellHead, Refusal>
    requires { from ≤ length text.now }
    ensures { HeadRead text.now from slash result }
{
    let hand = take_opened(text, from);
    let behind = expect_key(text, hand, 54)?;
    let name = read_text(text, behind)?;
    let path = cell_path(text, name.to, slash)?;
    Ok(CellHead {
        typefrom: name.from + 1,
        typeto: name.to - 1,
        sort: path.sort,
        pathfrom: path.from,
        pathto: path.to,
        end: path.end,
    })
}
