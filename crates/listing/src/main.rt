// The listing of a file (document 01, 'One listing in full'): what its cells and entries say, or its refusal. Where a write fails, so does the
// function, at once.
#![tactic(auto)]

ghost use Rattle.std.specs.Prelude.{◌+◌, ◌*◌, ◌≤◌, length};

use reader::read_file;
use std::io;
use std::io::{Read, Write};

fn print<W: Write>(out: &mut W, word: &[u8]) -> io::Result<()> {
    out.write_all(word)
}

fn print_number<W: Write>(out: &mut W, n: u64) -> io::Result<()> {
    write!(out, "{n}")
}

// 'refused N at P'.
fn print_refusal<W: Write>(out: &mut W, number: u8, place: usize) -> io::Result<()> {
    print(out, b"refused ")?;
    print_number(out, number as u64)?;
    print(out, b" at ")?;
    print_number(out, place as u64)?;
    print(out, b"\n")
}

// 'cells N entries M', as the example has it.
fn print_counts<W: Write>(out: &mut W, cells: usize, entries: usize) -> io::Result<()> {
    print(out, b"cells ")?;
    print_number(out, cells as u64)?;
    print(out, b" entries ")?;
    print_number(out, entries as u64)?;
    print(out, b"\n")
}

// A part of the text, from .. to .., as written.
fn print_part<W: Write>(out: &mut W, text: &[u8], from: u64, to: u64) -> io::Result<()> {
    let first = from as usize;
    let last = to as usize;
    if first <= last {
        if last <= text.len() {
            return print(out, &text[first..last]);
        }
    }
    Ok(())
}

// '. for the top, * as itself': the sort is 0 for the top, 1 for a path from .. to .., 2 for *.
fn print_path<W: Write>(out: &mut W, text: &[u8], sort: u64, from: u64, to: u64) -> io::Result<()> {
    match sort {
        0 => print(out, b"."),
        1 => print_part(out, text, from, to),
        _ => print(out, b"*"),
    }
}

// 'C gives type and path'. The cell's seven words begin at start.
fn print_cell<W: Write>(out: &mut W, text: &[u8], cells: &[u64], start: usize) -> io::Result<()>
    requires { start + 7 ≤ length cells.now }
{
    print(out, b"C ")?;
    print_part(out, text, cells[start + 1], cells[start + 2])?;
    print(out, b" ")?;
    print_path(
        out,
        text,
        cells[start + 3],
        cells[start + 4],
        cells[start + 5],
    )?;
    print(out, b"\n")
}

// The group's letter, of which the table has the byte.
fn print_group<W: Write>(out: &mut W, group: u64) -> io::Result<()> {
    match group {
        65 => print(out, b"A"),
        73 => print(out, b"I"),
        _ => print(out, b"T"),
    }
}

fn print_delay_kind<W: Write>(out: &mut W, kind: u64) -> io::Result<()> {
    match kind {
        1 => print(out, b"IOPATH"),
        2 => print(out, b"INTERCONNECT"),
        3 => print(out, b"PORT"),
        _ => print(out, b"DEVICE"),
    }
}

fn print_check_kind<W: Write>(out: &mut W, kind: u64) -> io::Result<()> {
    match kind {
        11 => print(out, b"SETUP"),
        12 => print(out, b"HOLD"),
        13 => print(out, b"SETUPHOLD"),
        14 => print(out, b"RECOVERY"),
        15 => print(out, b"REMOVAL"),
        16 => print(out, b"RECREM"),
        17 => print(out, b"SKEW"),
        18 => print(out, b"BIDIRECTSKEW"),
        19 => print(out, b"WIDTH"),
        20 => print(out, b"PERIOD"),
        _ => print(out, b"NOCHANGE"),
    }
}

// The kind's keyword.
fn print_kind<W: Write>(out: &mut W, kind: u64) -> io::Result<()> {
    if kind < 11 {
        return print_delay_kind(out, kind);
    }
    print_check_kind(out, kind)
}

// The edge's word, '- for a missing edge'.
fn print_edge<W: Write>(out: &mut W, edge: u64) -> io::Result<()> {
    match edge {
        1 => print(out, b"posedge"),
        2 => print(out, b"negedge"),
        3 => print(out, b"01"),
        4 => print(out, b"10"),
        5 => print(out, b"0z"),
        6 => print(out, b"z1"),
        7 => print(out, b"1z"),
        8 => print(out, b"z0"),
        _ => print(out, b"-"),
    }
}

// An edge and its end: 'names as written, - for a missing edge or end'. A missing end stands from 0 to 0, where no name can stand.
fn print_end<W: Write>(out: &mut W, text: &[u8], edge: u64, from: u64, to: u64) -> io::Result<()> {
    print(out, b" ")?;
    print_edge(out, edge)?;
    print(out, b" ")?;
    if to == 0 {
        return print(out, b"-");
    }
    print_part(out, text, from, to)
}

// A time in two's complement, '_ for absent', which is the least number.
fn print_time<W: Write>(out: &mut W, word: u64) -> io::Result<()> {
    if word < 0x8000000000000000 {
        return print_number(out, word);
    }
    if word == 0x8000000000000000 {
        return print(out, b"_");
    }
    print(out, b"-")?;
    print_number(out, 0xFFFFFFFFFFFFFFFF - word + 1)
}

// A value: its minimum, typical and maximum.
fn print_value<W: Write>(out: &mut W, min: u64, typ: u64, max: u64) -> io::Result<()> {
    print(out, b" ")?;
    print_time(out, min)?;
    print(out, b":")?;
    print_time(out, typ)?;
    print(out, b":")?;
    print_time(out, max)
}

// The first count values of an entry, whose words begin at start.
fn print_values<W: Write>(
    out: &mut W,
    entries: &[u64],
    start: usize,
    count: usize,
) -> io::Result<()>
    requires { start + 3 * count ≤ length entries.now }
{
    for i in 0..count {
        let word = start + 3 * i;
        print_value(out, entries[word], entries[word + 1], entries[word + 2])?;
    }
    Ok(())
}

// 'group, kind, edge, end, edge, end, values'. The entry's 28 words begin at start.
fn print_entry<W: Write>(out: &mut W, text: &[u8], entries: &[u64], start: usize) -> io::Result<()>
    requires { start + 28 ≤ length entries.now }
{
    print_group(out, entries[start + 1])?;
    print(out, b" ")?;
    print_kind(out, entries[start])?;
    print_end(
        out,
        text,
        entries[start + 3],
        entries[start + 4],
        entries[start + 5],
    )?;
    print_end(
        out,
        text,
        entries[start + 6],
        entries[start + 7],
        entries[start + 8],
    )?;
    let count = entries[start + 9] as usize;
    if count <= 6 {
        print_values(out, entries, start + 10, count)?;
    }
    print(out, b"\n")
}

// The entries from number first up to number last, counted from 0.
fn print_entries<W: Write>(
    out: &mut W,
    text: &[u8],
    entries: &[u64],
    first: usize,
    last: usize,
) -> io::Result<()>
    requires { 28 * last ≤ length entries.now }
{
    for i in first..last {
        print_entry(out, text, entries, 28 * i)?;
    }
    Ok(())
}

// The number behind a cell's last entry, where its first one has number first and the file has so many entries in all.
fn entries_end(cells: &[u64], start: usize, first: usize, all: usize) -> usize
    requires { (start + 7 ≤ length cells.now) × (first ≤ all) }
    ensures { result ≤ all }
{
    let count = cells[start + 6] as usize;
    if count <= all - first {
        return first + count;
    }
    all
}

// The first count cells, each with its entries behind it; the file has so many entries in all.
fn print_cells<W: Write>(
    out: &mut W,
    text: &[u8],
    cells: &[u64],
    entries: &[u64],
    count: usize,
    all: usize,
) -> io::Result<()>
    requires { (7 * count ≤ length cells.now) × (28 * all ≤ length entries.now) }
{
    let mut first = 0;
    for i in 0..count {
        print_cell(out, text, cells, 7 * i)?;
        let last = entries_end(cells, 7 * i, first, all);
        print_entries(out, text, entries, first, last)?;
        first = last;
    }
    Ok(())
}

// The listing of a text: 'room for 64 cells and 256 entries', of 7 and 28 words.
fn list<W: Write>(out: &mut W, text: &[u8]) -> io::Result<()> {
    let mut cells = [0u64; 448];
    let mut entries = [0u64; 7168];
    let read = read_file(text, &mut cells, &mut entries);
    match read.answer {
        Err(refusal) => print_refusal(out, refusal.number, refusal.place),
        Ok(counts) => {
            print_counts(out, counts.cells, counts.entries)?;
            print_cells(out, text, &cells, &entries, counts.cells, counts.entries)
        }
    }
}

// 'takes standard input up to 65,536 bytes (longer: refusal 1 at 0)': one byte more than that is asked for, to see whether it is longer.
fn main(rt: HostRuntime) -> io::Result<()> {
    let mut text = Vec::new(rt.alloc());
    rt.reader().take(65537).read_to_end(&mut text)?;
    let mut out = io::writer(&rt);
    if 65536 < text.len() {
        return print_refusal(&mut out, 1, 0);
    }
    list(&mut out, &text)
}
