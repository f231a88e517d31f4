// What a reading hands over: values, entries, cells, and what the readers answer where they do not refuse. No code: the definitions speak of
// these.
#![tactic(auto)]

ghost use Rattle.std.specs.Prelude.{◌≤◌};

use tokenforms::Token;

// A value: its minimum, typical and maximum, in femtoseconds; 'each of the three numbers is supplied or absent'.
#[derive(Clone, Copy)]
pub struct Value {
    pub min: Option<i64>,
    pub typ: Option<i64>,
    pub max: Option<i64>,
}

// An entry without its values: its kind as on the sheet (4 for DEVICE), its group ('A', 'I' or 'T'), its keyword's place, and its ends with
// their edges as on the sheet. A missing end stands from 0 to 0.
#[derive(Clone, Copy)]
pub struct Entry {
    pub kind: u8,
    pub group: u8,
    pub place: usize,
    pub edge1: u8,
    pub from1: usize,
    pub to1: usize,
    pub edge2: u8,
    pub from2: usize,
    pub to2: usize,
}

// A cell: its keyword's place, its type's text, its path (0 the top level, 1 from .. to .., 2 '*'), and the number of its entries.
#[derive(Clone, Copy)]
pub struct Cell {
    pub place: usize,
    pub typefrom: usize,
    pub typeto: usize,
    pub sort: u8,
    pub pathfrom: usize,
    pub pathto: usize,
    pub entries: usize,
}

// A name or a text, from .. to ...
#[derive(Clone, Copy)]
pub struct Span {
    pub from: usize,
    pub to: usize,
}

// An end of an entry: its edge as on the sheet (0: none), its port's name, from .. to .., and the place behind it.
#[derive(Clone, Copy)]
pub struct End {
    pub edge: u8,
    pub from: usize,
    pub to: usize,
    pub end: usize,
}

// A value, and the place behind it.
#[derive(Clone, Copy)]
pub struct ReadValue {
    pub value: Value,
    pub end: usize,
}

// The first `count` values of the list, and the place behind the closing bracket of their entry.
#[derive(Clone, Copy)]
pub struct Values {
    pub list: [Value; 6],
    pub count: usize,
    pub end: usize,
    ghost few: { count ≤ 6 },
}

#[derive(Clone, Copy)]
pub struct ReadEntry {
    pub entry: Entry,
    pub values: Values,
}

// Where in a cell a reading stands: among its sections, in a DELAY, in one of its groups, in a TIMINGCHECK.
#[derive(Clone, Copy)]
pub enum Within {
    Cell,
    Delay,
    Absolute,
    Increment,
    Check,
}

// The token right behind an opening bracket, looked at from a place and not yet taken, with its keyword's number (0: it is none).
#[derive(Clone, Copy)]
pub struct Hand {
    pub from: usize,
    pub token: Token,
    pub key: u8,
}

// What the header said, and the token behind it: the first cell's keyword, or what stands in its place.
#[derive(Clone, Copy)]
pub struct Head {
    pub hand: Hand,
    pub slash: bool,
    pub unit: u8,
}

// A step through a cell's sections, between its entries: on to another place of the sections (some: whether what has to stand there stands
// already), to an entry behind its opening bracket, or behind the cell's closing bracket.
#[derive(Clone, Copy)]
pub enum Turn {
    On {
        within: Within,
        some: bool,
        from: usize,
    },
    Entry(usize),
    Done(usize),
}

// Which of two keywords stands there, and the place behind it.
#[derive(Clone, Copy)]
pub struct Keyword {
    pub second: bool,
    pub end: usize,
}

// A cell's sections, or a whole cell: the place behind it, and the number of its entries.
#[derive(Clone, Copy)]
pub struct ReadBody {
    pub end: usize,
    pub count: usize,
}
