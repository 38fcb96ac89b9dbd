// Reading the header line: a file's own word and three numbers or four, each from 1 to 60.
#![tactic(auto)]

ghost use Rattle.std.specs.Prelude.{◌≡◌, ◌+◌, length, drop};
ghost use Rattle.fields.specs.Pieces.{same_bytes};
ghost use Rattle.forms.specs.Along.{line_in, field_in};
ghost use Rattle.model.specs.Refusals.{told};
ghost use Rattle.headers.specs.Headers.{header_word_of, number_at, has_outside, header_with, held_judged, header_to, numbers_judged, header_judged};

use listings::Levels;
use model::{Fault, Grammar, Header, Refusal};

// The header is the first line of its file.
const NOT_OF_FORM: Refusal = Refusal {
    fault: Fault::NotOfForm,
    place: 1,
};

// Whether the text begins with the header word of a listing, where levels rise, or else of the grammar.
#[tactic(auto, using(crate::proofs::HeaderLaws::word_laws))]
fn is_header(levels: Levels, grammar: Grammar, text: &[u8]) -> bool
    ensures { result ≡ same_bytes (field_in text.now) (header_word_of levels grammar) }
{
    match levels {
        Levels::Rising => forms::is_word_at(text, 0, b"rising"),
        Levels::Falling => match grammar {
            Grammar::Circuit => forms::is_word_at(text, 0, b"circuit"),
            Grammar::Schedule => forms::is_word_at(text, 0, b"schedule"),
        },
    }
}

// The place past the header word.
fn header_end(levels: Levels, grammar: Grammar) -> usize
    ensures { result ≡ length (header_word_of levels grammar) }
{
    match levels {
        Levels::Rising => 6,
        Levels::Falling => match grammar {
            Grammar::Circuit => 7,
            Grammar::Schedule => 8,
        },
    }
}

// The number after a tab that stands here, 0 where it is outside its range, and the place past it.
#[tactic(auto, using(crate::proofs::HeaderLaws::number_laws))]
fn number_at(text: &[u8], at: usize) -> Result<(u32, usize), Refusal>
    ensures { result ≡ number_at text.now at }
{
    let Some(field) = forms::field_after(text, at, false, 60) else {
        return Err(NOT_OF_FORM);
    };
    Ok((field.number.unwrap_or(0) as u32, field.end))
}

// Whether a number of a header is outside its range.
fn has_outside(header: Header) -> bool
    ensures { result ≡ has_outside header }
{
    header.factor == 0 || header.waterline == 0 || header.top == 0 || header.headroom == Some(0)
}

// A header of these numbers, whose line ends before `end`.
#[tactic(auto, using(crate::proofs::HeaderLaws::range_laws))]
fn ranged(
    factor: u32,
    waterline: u32,
    top: u32,
    headroom: Option<u32>,
    end: usize,
) -> Result<(Header, usize), Refusal>
    ensures { told result ≡ header_to end (held_judged (header_with factor waterline top headroom)) }
{
    let header = Header {
        factor,
        waterline,
        top,
        headroom,
    };
    if has_outside(header) {
        return Err(Refusal {
            fault: Fault::HeaderOutOfRange,
            place: 1,
        });
    }
    Ok((header, end))
}

// What follows a word that ends at `start`: three numbers, or four, and a line feed.
#[tactic(auto, using(crate::proofs::HeaderLaws::numbers_laws))]
fn read_numbers(text: &[u8], start: usize) -> Result<(Header, usize), Refusal>
    ensures { told result ≡ header_to (start + length (line_in (drop start text.now)) + 1) (numbers_judged (drop start text.now)) }
{
    let (factor, end) = number_at(text, start)?;
    let (waterline, end) = number_at(text, end)?;
    let (top, end) = number_at(text, end)?;
    if fields::is_at(text, end, b'\n') {
        return ranged(factor, waterline, top, None, end + 1);
    }
    let (bits, end) = number_at(text, end)?;
    if !fields::is_at(text, end, b'\n') {
        return Err(NOT_OF_FORM);
    }
    ranged(factor, waterline, top, Some(bits), end + 1)
}

// The header line that a text begins with.
#[tactic(auto, using(crate::proofs::HeaderLaws::header_laws))]
pub fn read_header(
    levels: Levels,
    grammar: Grammar,
    text: &[u8],
) -> Result<(Header, usize), Refusal>
    ensures { told result ≡ header_to (length (line_in text.now) + 1) (header_judged levels grammar text.now) }
{
    if !is_header(levels, grammar, text) {
        return Err(NOT_OF_FORM);
    }
    read_numbers(text, header_end(levels, grammar))
}
