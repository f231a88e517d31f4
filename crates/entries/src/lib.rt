// The readers of entries: recursive descent over the tokens of a text. Each contract is an equation between readings
// (rules/specs/Promises.antt). Every reader takes the text and the place from which to read. A struct of
// slash and unit would be no plainer: the readers of ends take the one and those of values the other.
#![tactic(auto)]

ghost use Rattle.std.specs.Prelude.{◌≡◌, false, [], ◌∷◌, ◌≤◌, length};
ghost use Rattle.grammar.specs.Ll.{non};
ghost use Rattle.grammar.specs.Grammar.{iopath_tail, interconnect_tail, port_tail, two_ends, device, delay, check, end?};
ghost use Rattle.grammar.specs.Meaning.{head_of};
ghost use Rattle.rules.specs.Promises.{ValuesFrom, Entered, Listable, list_end, list_of, entry_end, entry_of, values_of};
ghost use Rattle.rules.specs.Entries.{check_values, SecondValue, delay_tail, check_tail};
ghost use Rattle.entries.specs.Started.{start};

use entryends::{read_end, read_port};
use grammar::{Entry, ReadEntry, Value, Values};
use kinds::{has_second, is_signed, rows_of};
use nametokens::{name_fault, name_token};
use tokenforms::{Refusal, Token};
use tokens::token_from;
use values::{expect, open_value, open_values, read_values, wrong_at};
use words::key_of;

// An entry's keyword: the entry's kind and group, and where the word stands.
#[derive(Clone, Copy)]
struct Started {
    kind: u8,
    group: u8,
    place: usize,
}

impl Started {
    // The entry, with no end yet.
    fn bare(self) -> Entry
        ensures { result ≡ head_of self.kind self.group self.place }
    {
        Entry {
            kind: self.kind,
            group: self.group,
            place: self.place,
            edge1: 0,
            from1: 0,
            to1: 0,
            edge2: 0,
            from2: 0,
            to2: 0,
        }
    }
}

// ---- entries, behind their keywords

// IOPATH.
fn read_iopath(
    text: &[u8],
    from: usize,
    slash: bool,
    unit: u8,
    started: Started,
) -> Result<ReadEntry, Refusal>
    requires { from ≤ length text.now }
    ensures { Entered text.now from (iopath_tail slash) slash unit started.kind started.group started.place
        (entry_end result) (entry_of result) (values_of result) }
{
    let input = read_end(text, from, false, slash)?;
    let output = read_port(text, input.end, slash)?;
    let values = open_values(text, output.to, unit)?;
    let entry = Entry {
        edge1: input.edge,
        from1: input.from,
        to1: input.to,
        from2: output.from,
        to2: output.to,
        ..started.bare()
    };
    Ok(ReadEntry { entry, values })
}

// INTERCONNECT.
fn read_interconnect(
    text: &[u8],
    from: usize,
    slash: bool,
    unit: u8,
    started: Started,
) -> Result<ReadEntry, Refusal>
    requires { from ≤ length text.now }
    ensures { Entered text.now from (interconnect_tail slash) slash unit started.kind started.group started.place
        (entry_end result) (entry_of result) (values_of result) }
{
    let source = read_port(text, from, slash)?;
    let load = read_port(text, source.to, slash)?;
    let values = open_values(text, load.to, unit)?;
    let entry = Entry {
        from1: source.from,
        to1: source.to,
        from2: load.from,
        to2: load.to,
        ..started.bare()
    };
    Ok(ReadEntry { entry, values })
}

// PORT.
fn read_port_delay(
    text: &[u8],
    from: usize,
    slash: bool,
    unit: u8,
    started: Started,
) -> Result<ReadEntry, Refusal>
    requires { from ≤ length text.now }
    ensures { Entered text.now from (port_tail slash) slash unit started.kind started.group started.place
        (entry_end result) (entry_of result) (values_of result) }
{
    let port = read_port(text, from, slash)?;
    let values = open_values(text, port.to, unit)?;
    let entry = Entry {
        from1: port.from,
        to1: port.to,
        ..started.bare()
    };
    Ok(ReadEntry { entry, values })
}

// DEVICE, with a port or without.
fn read_device(
    text: &[u8],
    from: usize,
    slash: bool,
    unit: u8,
    started: Started,
) -> Result<ReadEntry, Refusal>
    requires { from ≤ length text.now }
    ensures { Entered text.now from (non (device slash) ∷ []) slash unit started.kind started.group started.place
        (entry_end result) (entry_of result) (values_of result) }
{
    let shaped = name_token(text, from, slash)?;
    let token = shaped.token;
    if token.kind == 2 {
        let values = read_values(text, token.end, unit)?;
        return Ok(ReadEntry {
            entry: started.bare(),
            values,
        });
    }
    name_fault(true, shaped)?;
    let values = open_values(text, token.end, unit)?;
    let entry = Entry {
        from1: token.start,
        to1: token.end,
        ..started.bare()
    };
    Ok(ReadEntry { entry, values })
}

// The second of two values of a check, and its closing bracket. Inlined, as is check_values: a call would copy the list on its way into the entry.
#[inline(always)]
fn second_value(
    text: &[u8],
    from: usize,
    signed: bool,
    unit: u8,
    first: Value,
) -> Result<Values, Refusal>
    requires { from ≤ length text.now }
    ensures { SecondValue text.now from signed unit first (list_end result) (list_of result) }
{
    let second = open_value(text, from, signed, unit)?;
    let end = expect(text, second.end, 3)?;
    let mut list = [first; 6];
    list[1] = second.value;
    Ok(Values {
        list,
        count: 2,
        end,
    })
}

// The values of a check, one or two, and its closing bracket.
#[inline(always)]
fn check_values(
    text: &[u8],
    from: usize,
    signed: bool,
    two: bool,
    unit: u8,
) -> Result<Values, Refusal>
    requires { from ≤ length text.now }
    ensures { ValuesFrom text.now from (check_values two signed) false unit (list_end result) (list_of result) }
{
    let first = open_value(text, from, signed, unit)?;
    if two {
        return second_value(text, first.end, signed, unit, first.value);
    }
    let end = expect(text, first.end, 3)?;
    Ok(Values {
        list: [first.value; 6],
        count: 1,
        end,
    })
}

// A check of two ends.
fn read_pair(
    text: &[u8],
    from: usize,
    slash: bool,
    unit: u8,
    started: Started,
    signed: bool,
    two: bool,
) -> Result<ReadEntry, Refusal>
    requires { from ≤ length text.now }
    ensures { Entered text.now from (two_ends slash (check_values two signed)) slash unit started.kind started.group started.place
        (entry_end result) (entry_of result) (values_of result) }
{
    let first = read_end(text, from, false, slash)?;
    let second = read_end(text, first.end, true, slash)?;
    let values = check_values(text, second.end, signed, two, unit)?;
    let entry = Entry {
        edge1: first.edge,
        from1: first.from,
        to1: first.to,
        edge2: second.edge,
        from2: second.from,
        to2: second.to,
        ..started.bare()
    };
    Ok(ReadEntry { entry, values })
}

// A check of one end.
fn read_single(
    text: &[u8],
    from: usize,
    slash: bool,
    unit: u8,
    started: Started,
) -> Result<ReadEntry, Refusal>
    requires { from ≤ length text.now }
    ensures { Entered text.now from (non (end? false slash) ∷ check_values false false) slash unit started.kind started.group started.place
        (entry_end result) (entry_of result) (values_of result) }
{
    let port = read_end(text, from, false, slash)?;
    let values = check_values(text, port.end, false, false, unit)?;
    let entry = Entry {
        edge1: port.edge,
        from1: port.from,
        to1: port.to,
        ..started.bare()
    };
    Ok(ReadEntry { entry, values })
}

// ---- entries, at their keywords

// An entry of a DELAY group, behind its keyword.
fn delay_of(
    text: &[u8],
    from: usize,
    slash: bool,
    unit: u8,
    started: Started,
) -> Result<ReadEntry, Refusal>
    requires { (from ≤ length text.now) × (1 ≤ started.kind) × (started.kind ≤ 4) }
    ensures { Entered text.now from (delay_tail started.kind slash) slash unit started.kind started.group started.place
        (entry_end result) (entry_of result) (values_of result) }
{
    match started.kind {
        1 => read_iopath(text, from, slash, unit, started),
        2 => read_interconnect(text, from, slash, unit, started),
        3 => read_port_delay(text, from, slash, unit, started),
        _ => read_device(text, from, slash, unit, started),
    }
}

// A check, behind its keyword.
fn check_of(
    text: &[u8],
    from: usize,
    slash: bool,
    unit: u8,
    started: Started,
) -> Result<ReadEntry, Refusal>
    requires { from ≤ length text.now }
    ensures { Entered text.now from (check_tail started.kind slash) slash unit started.kind started.group started.place
        (entry_end result) (entry_of result) (values_of result) }
{
    let kind = started.kind;
    if has_second(kind) {
        return read_pair(
            text,
            from,
            slash,
            unit,
            started,
            is_signed(kind),
            rows_of(kind) == 2,
        );
    }
    read_single(text, from, slash, unit, started)
}

// An entry's keyword, of a kind from `least` to `most`, right behind an opening bracket; room is how many entries there is still room for.
fn start(
    text: &[u8],
    token: Token,
    least: u8,
    most: u8,
    group: u8,
    room: usize,
) -> Result<Started, Refusal>
    requires { (token.start ≤ token.end) × (token.end ≤ length text.now) }
    ensures { result ≡ start text.now token least most group room }
{
    let word = &text[token.start..token.end];
    let place = token.start;
    let kind = key_of(word);
    if token.kind != 7 || kind < least || most < kind {
        let number = wrong_at(word, token.kind, true);
        return Err(Refusal { number, place });
    }
    if token.long {
        return Err(Refusal { number: 8, place });
    }
    if room == 0 {
        return Err(Refusal { number: 9, place });
    }
    Ok(Started { kind, group, place })
}

// An entry of a DELAY group, behind its opening bracket; room is how many entries there is still room for.
pub fn read_delay(
    text: &[u8],
    from: usize,
    slash: bool,
    unit: u8,
    group: u8,
    room: usize,
) -> Result<ReadEntry, Refusal>
    requires { from ≤ length text.now }
    ensures { Listable text.now from (delay group slash) slash unit room (entry_end result) (entry_of result) (values_of result) }
{
    let token = token_from(text, from)?;
    let started = start(text, token, 1, 4, group, room)?;
    delay_of(text, token.end, slash, unit, started)
}

// A check, behind its opening bracket.
pub fn read_check(
    text: &[u8],
    from: usize,
    slash: bool,
    unit: u8,
    room: usize,
) -> Result<ReadEntry, Refusal>
    requires { from ≤ length text.now }
    ensures { Listable text.now from (check slash) slash unit room (entry_end result) (entry_of result) (values_of result) }
{
    let token = token_from(text, from)?;
    let started = start(text, token, 11, 21, 84, room)?;
    check_of(text, token.end, slash, unit, started)
}
