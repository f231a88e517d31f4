// The class of a byte, by comparisons against document 01's ranges, in the order and the words of its 'Bytes and words'; and the questions that
// the loops over a text ask of every byte, each about a single class.
#![tactic(auto)]

ghost use Rattle.std.specs.Prelude.{◌≡◌, eqb};
ghost use Rattle.classes.specs.Choice.{within};
ghost use Rattle.classes.specs.Classes.{is_legal, is_letter, is_digit, class_of, mark_of};

pub fn class_of(byte: u8) -> u8
    ensures { result ≡ class_of byte }
{
    match byte {
        // 'Tab, LF, CR and space are white space.'
        b'\t' | b'\n' | b'\r' | b' ' => 1,
        // 'Tokens are ( ) : * a quoted string, a word.'
        b'(' => 2,
        b')' => 3,
        b':' => 4,
        b'*' => 5,
        b'"' => 6,
        // 'A word is a longest run of letters, digits, _ $ . / [ ] + - and escaped pairs.'
        b'A'..=b'Z' | b'a'..=b'z' | b'0'..=b'9' | b'_' | b'$' | b'.' | b'+' | b'-' => 7,
        b'/' => 8,
        b'[' => 9,
        b']' => 10,
        b'\\' => 11,
        // 'Any other printable byte'
        0x20..=0x7E => 12,
        // 'Legal bytes are tab, LF, CR and 0x20 to 0x7E.'
        _ => 0,
    }
}

// From low to high, both included. (docs/PROMISES.md names it and the two questions below: they stand beside the library's `is_ascii_..`.)
pub fn is_within(low: u8, high: u8, byte: u8) -> bool
    ensures { result ≡ within low high byte }
{
    low <= byte && byte <= high
}

pub fn is_letter(byte: u8) -> bool
    ensures { result ≡ is_letter byte }
{
    is_within(b'A', b'Z', byte) || is_within(b'a', b'z', byte)
}

pub fn is_digit(byte: u8) -> bool
    ensures { result ≡ is_digit byte }
{
    is_within(b'0', b'9', byte)
}

// Plain in a word: mostly letters, then digits and points. (One `match` of all these is slower: docs/notes/ask-4.md.)
#[tactic(auto, using(crate::proofs::Asked::plain_asked))]
pub fn is_plain(byte: u8) -> bool
    ensures { result ≡ eqb (class_of byte) 7 }
{
    if is_letter(byte) {
        return true;
    }
    // - . / and the digits
    if is_within(b'-', b'9', byte) {
        return byte != b'/';
    }
    if byte == b'_' {
        return true;
    }
    byte == b'$' || byte == b'+'
}

#[tactic(auto, using(crate::proofs::Asked::white_asked))]
pub fn is_white(byte: u8) -> bool
    ensures { result ≡ eqb (class_of byte) 1 }
{
    byte == b' ' || is_within(b'\t', b'\n', byte) || byte == b'\r'
}

#[tactic(auto, using(crate::specs::ClassLaws::white_rule))]
pub fn is_legal(byte: u8) -> bool
    ensures { result ≡ is_legal byte }
{
    is_within(0x20, 0x7E, byte) || is_white(byte)
}

// The class of a mark: ( ) : * . 0 for any other byte. Most marks are brackets, whose two classes follow each other as they do.
// (A `match` is slower: docs/notes/ask-4.md.)
#[tactic(auto, using(crate::proofs::Asked::mark_asked))]
pub fn mark_of(byte: u8) -> u8
    ensures { result ≡ mark_of byte }
{
    if is_within(b'(', b')', byte) {
        return byte - b'(' + 2;
    }
    if byte == b':' {
        return 4;
    }
    if byte == b'*' {
        return 5;
    }
    0
}
