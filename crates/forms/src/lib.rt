// Reads a line as it goes along the text: its word, then the fields after it, of every kind of file. Digits are read up to the first byte that is
// none, and that byte is then asked for: a tab before the next field, a line feed after the last.
#![tactic(auto)]

ghost use Rattle.std.specs.Prelude.{cond, ◌≡◌, map, ◌+◌, ◌≤◌, T, length, drop};
ghost use Rattle.fields.specs.Pieces.{same_bytes};
ghost use Rattle.forms.specs.Along.{line_in, field_in, numbers_in, ends_field, is_plain};
ghost use Rattle.forms.specs.Asked.{signed_at, largest_at, outside_at, held_as, field_after, described, read_as, numbers_to, unless_outside};

use fields::FieldAt;
use model::{Fault, Refusal};

// What is asked of the fields after a word: how many there are; how many of them, the first ones, are value numbers; and from which to which number each
// other one is, the third up to a largest of its own.
#[derive(Clone, Copy)]
pub struct FieldsAsked {
    pub count: usize,
    pub operands: usize,
    pub least: i64,
    pub largest: u32,
    pub third: u32,
}

// The numbers of a line's fields, each in its range, 0 past them, and the place of its line feed.
#[derive(Clone, Copy)]
pub struct Numbers {
    pub first: i64,
    pub second: i64,
    pub third: i64,
    pub end: usize,
}

// Whether a field that stands before this place ends here: at a tab, a line feed or the text's end.
#[tactic(auto, using(crate::proofs::WordLaws::end_laws))]
fn ends_field(text: &[u8], at: usize) -> bool
    ensures { result ≡ ends_field (drop at text.now) }
{
    text.len() <= at || text[at] == b'\t' || text[at] == b'\n'
}

// Whether the line's first field is this word.
#[tactic(auto, using(crate::proofs::WordLaws::word_laws))]
pub fn is_word_at(text: &[u8], at: usize, word: &[u8]) -> bool
    requires at_in_bounds { at ≤ length text.now }
    requires t { T (is_plain word.now) }
    ensures { result ≡ same_bytes (field_in (drop at text.now)) word.now }
{
    word.len() <= text.len() - at
        && ends_field(text, at + word.len())
        && fields::same(&text[at..at + word.len()], word)
}

// ---- field i, counted from 0
impl FieldsAsked {
    // A sign is read where the least is below zero. A value number has none.
    #[tactic(auto, unfolding(crate::specs::Asked::signed_at))]
    fn is_signed(&self, i: usize) -> bool
        ensures { result ≡ signed_at self.now i }
    {
        self.operands <= i && self.least < 0
    }

    // No file has a value above 1,791.
    #[tactic(auto, unfolding(crate::specs::Asked::largest_at))]
    fn largest_at(&self, i: usize) -> u32
        ensures { result ≡ largest_at self.now i }
    {
        if i < self.operands {
            1791
        } else if i == 2 {
            self.third
        } else {
            self.largest
        }
    }

    // Whether its number is outside its range. A value number has none.
    #[tactic(auto, unfolding(crate::specs::Asked::outside_at))]
    fn is_outside(&self, i: usize, number: Option<i64>) -> bool
        ensures { result ≡ outside_at self.now i number }
    {
        self.operands <= i && number.is_none_or(|n| n < self.least)
    }
}

// Its number as it is held. A value number above every line's is held as 1,792, which names no line either.
fn held(number: Option<i64>) -> i64
    ensures { result ≡ held_as number }
{
    number.unwrap_or(1792)
}

// A tab here, and then the number of a field with a sign, or without, against the largest that it may have.
#[tactic(auto, using(crate::proofs::StepLaws::field_laws))]
pub fn field_after(text: &[u8], at: usize, signed: bool, largest: u32) -> Option<FieldAt>
    ensures { result ≡ field_after signed largest text.now at }
{
    if !fields::is_at(text, at, b'\t') {
        return None;
    }
    fields::field_at(text, at + 1, signed, largest)
}

// ---- the fields of a line
// The line with this place, refused.
fn refused(fault: Fault, place: u32) -> Result<Numbers, Refusal>
    ensures { result ≡ Err (record { fault = fault; place = place }) }
{
    Err(Refusal { fault, place })
}

// The numbers of a line that is of the form, unless one is outside its range.
fn ranged(
    place: u32,
    outside: bool,
    first: i64,
    second: i64,
    third: i64,
    end: usize,
) -> Result<Numbers, Refusal>
    ensures { result ≡ unless_outside outside place (record { first = first; second = second; third = third; end = end }) }
{
    if outside {
        return refused(Fault::NumberOutOfRange, place);
    }
    Ok(Numbers {
        first,
        second,
        third,
        end,
    })
}

// The numbers of the fields that are asked for after a word that ends at `start`, with a line feed after the last, in the line with this place.
pub fn numbers_at(
    place: u32,
    text: &[u8],
    start: usize,
    asked: &FieldsAsked,
) -> Result<Numbers, Refusal>
    requires { asked.now.count ≤ 3 }
    ensures { result ≡ numbers_to (described asked.now) place (start + length (line_in (drop start text.now))) (numbers_in (map read_as (described asked.now)) (drop start text.now)) }
{
    let mut numbers = [0i64; 3];
    let mut outside = false;
    let mut at = start;
    for i in 0..asked.count {
        let signed = asked.is_signed(i);
        let most = asked.largest_at(i);
        let Some(field) = field_after(text, at, signed, most) else {
            return refused(Fault::NotOfForm, place);
        };
        // No return before the line's end: what is not of the form is refused as that, before any range.
        outside |= asked.is_outside(i, field.number);
        numbers[i] = held(field.number);
        at = field.end;
    }
    if !fields::is_at(text, at, b'\n') {
        return refused(Fault::NotOfForm, place);
    }
    ranged(place, outside, numbers[0], numbers[1], numbers[2], at)
}
