// The texts of a header that was read.
#![tactic(auto)]

ghost use Rattle.std.specs.Prelude.{◌≡◌};
ghost use Rattle.headtexts.specs.Texts.{text_of};

use names::part_of;

// The bytes between the quotes of the text of this number; none where the places do not lie in the text, or there is no such number.
pub fn header_text<'a>(text: &'a [u8], texts: &[usize; 14], which: usize) -> &'a [u8]
    ensures { result.now ≡ text_of text.now texts.now which }
{
    if which <= 6 {
        let start = texts[2 * which];
        let end = texts[2 * which + 1];
        return part_of(text, start, end);
    }
    part_of(text, 0, 0)
}

// DESIGN's text.
pub fn design<'a>(text: &'a [u8], texts: &[usize; 14]) -> &'a [u8]
    ensures { result.now ≡ text_of text.now texts.now 1 }
{
    header_text(text, texts, 1)
}

// VERSION's text.
pub fn version<'a>(text: &'a [u8], texts: &[usize; 14]) -> &'a [u8]
    ensures { result.now ≡ text_of text.now texts.now 5 }
{
    header_text(text, texts, 5)
}
