// Which word is which (document 01, 'Keywords are upper case, edges and units lower case'): the numbers are those of specs/Words.antt.
//
// Most words are told apart as numbers: eight bytes are the eight digits of a number to the base 256, so that a whole word is
// compared at once, and its code in hexadecimal can be read: 0x504F5254 is 50 4F 52 54, PORT. (Arms such as `b"posedge"` and `b"10.0"` were
// tried for edges and multiples: the proof that other words of these lengths are none did not close.)
#![tactic(auto)]

ghost use Rattle.std.specs.Prelude.{◌≤◌, ◌≡◌, eqb, length, take, drop};
ghost use Rattle.classes.specs.Choice.{pick};
ghost use Rattle.words.specs.Words.{key_of, edge_of, unit_of, multiple_of, scale_of, divider_of, keywords, edges, units, multiples, dividers};
ghost use Rattle.words.specs.Packed.{packed, among, of_length};
ghost use Rattle.words.specs.Scales.{cut};

// The code of up to eight bytes.
fn packed(word: &[u8]) -> u64
    requires { length word.now ≤ 8 }
    ensures { result ≡ packed word.now }
{
    let mut code = 0;
    for &byte in word {
        code = code * 256 + u64::from(byte);
    }
    code
}

// A longer word has two codes, that of its first eight bytes and that of the rest.
fn first_eight(word: &[u8]) -> u64
    requires { 8 ≤ length word.now }
    ensures { result ≡ packed (take 8 word.now) }
{
    packed(&word[..8])
}

fn rest(word: &[u8]) -> u64
    requires in_bounds { 8 ≤ length word.now }
    requires word_len_bound { length word.now ≤ 16 }
    ensures { result ≡ packed (drop 8 word.now) }
{
    packed(&word[8..])
}

// The number, if the code is the one wanted.
fn only(code: u64, wanted: u64, number: u8) -> u8
    ensures { result ≡ pick (eqb code wanted) number 0 }
{
    if code == wanted { number } else { 0 }
}

// The keywords, a table for each length: in one, the function would be longer than 40 lines.

// The keywords of four letters.
fn key_4(code: u64) -> u8
    ensures { result ≡ among (of_length 4 keywords) code 0 }
{
    match code {
        0x504F5254 => 3, // PORT
        0x484F4C44 => 12, // HOLD
        0x534B4557 => 17, // SKEW
        0x44415445 => 44, // DATE
        0x43454C4C => 53, // CELL
        0x434F4E44 => 90, // COND
        _ => 0,
    }
}

// The keywords of five letters.
fn key_5(code: u64) -> u8
    ensures { result ≡ among (of_length 5 keywords) code 0 }
{
    match code {
        0x5345545550 => 11, // SETUP
        0x5749445448 => 19, // WIDTH
        0x44454C4159 => 56, // DELAY
        0x53434F4E44 => 92, // SCOND
        0x43434F4E44 => 93, // CCOND
        0x4C4142454C => 99, // LABEL
        _ => 0,
    }
}

// The keywords of six letters.
fn key_6(code: u64) -> u8
    ensures { result ≡ among (of_length 6 keywords) code 0 }
{
    match code {
        0x494F50415448 => 1, // IOPATH
        0x444556494345 => 4, // DEVICE
        0x52454352454D => 16, // RECREM
        0x504552494F44 => 20, // PERIOD
        0x44455349474E => 43, // DESIGN
        0x56454E444F52 => 45, // VENDOR
        0x52455441494E => 94, // RETAIN
        _ => 0,
    }
}

// The keywords of seven letters.
fn key_7(code: u64) -> u8
    ensures { result ≡ among (of_length 7 keywords) code 0 }
{
    match code {
        0x52454D4F56414C => 15, // REMOVAL
        0x50524F4752414D => 46, // PROGRAM
        0x56455253494F4E => 47, // VERSION
        0x44495649444552 => 48, // DIVIDER
        0x564F4C54414745 => 49, // VOLTAGE
        0x50524F43455353 => 50, // PROCESS
        _ => 0,
    }
}

// The keywords of eight letters.
fn key_8(code: u64) -> u8
    ensures { result ≡ among (of_length 8 keywords) code 0 }
{
    match code {
        0x5245434F56455259 => 14, // RECOVERY
        0x4E4F4348414E4745 => 21, // NOCHANGE
        0x43454C4C54595045 => 54, // CELLTYPE
        0x494E5354414E4345 => 55, // INSTANCE
        0x4142534F4C555445 => 58, // ABSOLUTE
        0x434F4E44454C5345 => 91, // CONDELSE
        0x4E455444454C4159 => 97, // NETDELAY
        _ => 0,
    }
}

// The keywords of nine letters.
fn key_9(head: u64, rest: u64) -> u8
    ensures { result ≡ among (of_length 9 keywords) head rest }
{
    match head {
        0x5345545550484F4C => only(rest, 0x44, 13), // SETUPHOL D
        0x44454C415946494C => only(rest, 0x45, 41), // DELAYFIL E
        0x54494D455343414C => only(rest, 0x45, 52), // TIMESCAL E
        0x494E4352454D454E => only(rest, 0x54, 59), // INCREMEN T
        0x5041544850554C53 => only(rest, 0x45, 95), // PATHPULS E
        0x54494D494E47454E => only(rest, 0x56, 98), // TIMINGEN V
        _ => 0,
    }
}

// The keyword of ten letters.
fn key_10(head: u64, rest: u64) -> u8
    ensures { result ≡ among (of_length 10 keywords) head rest }
{
    match head {
        0x5344465645525349 => only(rest, 0x4F4E, 42), // SDFVERSI ON
        _ => 0,
    }
}

// The keywords of eleven letters.
fn key_11(head: u64, rest: u64) -> u8
    ensures { result ≡ among (of_length 11 keywords) head rest }
{
    match head {
        0x54454D5045524154 => only(rest, 0x555245, 51), // TEMPERAT URE
        0x54494D494E474348 => only(rest, 0x45434B, 57), // TIMINGCH ECK
        _ => 0,
    }
}

// The keywords of twelve letters.
fn key_12(head: u64, rest: u64) -> u8
    ensures { result ≡ among (of_length 12 keywords) head rest }
{
    match head {
        0x494E544552434F4E => only(rest, 0x4E454354, 2), // INTERCON NECT
        0x4249444952454354 => only(rest, 0x534B4557, 18), // BIDIRECT SKEW
        _ => 0,
    }
}

// The keyword of sixteen letters.
fn key_16(head: u64, rest: u64) -> u8
    ensures { result ≡ among (of_length 16 keywords) head rest }
{
    match head {
        0x5041544850554C53 => only(rest, 0x4550455243454E54, 96), // PATHPULS EPERCENT
        _ => 0,
    }
}

// The number of a keyword, or 0.
pub fn key_of(word: &[u8]) -> u8
    ensures { result ≡ key_of word.now }
{
    match word.len() {
        4 => key_4(packed(word)),
        5 => key_5(packed(word)),
        6 => key_6(packed(word)),
        7 => key_7(packed(word)),
        8 => key_8(packed(word)),
        9 => key_9(first_eight(word), rest(word)),
        10 => key_10(first_eight(word), rest(word)),
        11 => key_11(first_eight(word), rest(word)),
        12 => key_12(first_eight(word), rest(word)),
        16 => key_16(first_eight(word), rest(word)),
        _ => 0,
    }
}

// The edges of two bytes.
fn edge_2(code: u64) -> u8
    ensures { result ≡ among (of_length 2 edges) code 0 }
{
    match code {
        0x3031 => 3, // 01
        0x3130 => 4, // 10
        0x307A => 5, // 0z
        0x7A31 => 6, // z1
        0x317A => 7, // 1z
        0x7A30 => 8, // z0
        _ => 0,
    }
}

// The edges of seven bytes.
fn edge_7(code: u64) -> u8
    ensures { result ≡ among (of_length 7 edges) code 0 }
{
    match code {
        0x706F7365646765 => 1, // posedge
        0x6E656765646765 => 2, // negedge
        _ => 0,
    }
}

// The number of an edge, or 0.
pub fn edge_of(word: &[u8]) -> u8
    ensures { result ≡ edge_of word.now }
{
    match word.len() {
        2 => edge_2(packed(word)),
        7 => edge_7(packed(word)),
        _ => 0,
    }
}

// The number of a unit, or 0.
#[tactic(auto, using(crate::proofs::Lengths::unit_empty, crate::proofs::Lengths::unit_long, crate::proofs::Lengths::unit_other), unfolding(crate::specs::Words::unit_of))]
pub fn unit_of(word: &[u8]) -> u8
    ensures { result ≡ unit_of word.now }
{
    match word {
        b"fs" => 1,
        b"ps" => 4,
        b"ns" => 7,
        b"us" => 10,
        b"ms" => 13,
        b"s" => 16,
        _ => 0,
    }
}

// The multiples of three bytes.
fn multiple_3(code: u64) -> u8
    ensures { result ≡ among (of_length 3 multiples) code 0 }
{
    match code {
        0x313030 => 3, // 100
        0x312E30 => 1, // 1.0
        _ => 0,
    }
}

// The number of a time scale's multiple, or 0.
fn multiple_of(word: &[u8]) -> u8
    ensures { result ≡ multiple_of word.now }
{
    match word.len() {
        1 => only(packed(word), 0x31, 1), // 1
        2 => only(packed(word), 0x3130, 2), // 10
        3 => multiple_3(packed(word)),
        4 => only(packed(word), 0x31302E30, 2), // 10.0
        5 => only(packed(word), 0x3130302E30, 3), // 100.0
        _ => 0,
    }
}

// The number of a time scale in one word whose last `letters` bytes are the unit, or 0.
fn joined_scale(word: &[u8], letters: usize) -> u8
    ensures { result ≡ cut letters word.now }
{
    if word.len() < letters {
        return 0;
    }
    let end = word.len() - letters;
    let multiple = multiple_of(&word[..end]);
    if multiple == 0 {
        return 0;
    }
    let unit = unit_of(&word[end..]);
    if unit == 0 {
        return 0;
    }
    multiple + unit + 9
}

// The number of a time scale's first word, or 0: a multiple, or a multiple and a unit in one.
pub fn scale_of(word: &[u8]) -> u8
    ensures { result ≡ scale_of word.now }
{
    let multiple = multiple_of(word);
    if multiple != 0 {
        return multiple;
    }
    let joined = joined_scale(word, 2);
    if joined != 0 {
        joined
    } else {
        joined_scale(word, 1)
    }
}

// The number of a divider, or 0.
#[tactic(auto, using(crate::proofs::Lengths::no_divider), unfolding(crate::specs::Words::divider_of))]
pub fn divider_of(word: &[u8]) -> u8
    ensures { result ≡ divider_of word.now }
{
    match word {
        b"." => 1,
        b"/" => 2,
        _ => 0,
    }
}
