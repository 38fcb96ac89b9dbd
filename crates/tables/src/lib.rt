// The record that holds a line, and what the code of several crates asks of a table of records.
#![tactic(auto)]

ghost use Rattle.std.specs.Prelude.{◌≡◌, ◌+◌, ◌*◌, ◌/◌, ◌%◌, ◌≤◌, ◌<◌, length, get_or};
ghost use Rattle.model.specs.declared.Line.TheVariants.{Free};
ghost use Rattle.model.specs.Words.{entry};
ghost use Rattle.model.specs.Files.{kind_at, is_ciphertext, is_constant};
ghost use Rattle.model.specs.Answers.{same_line};
ghost use Rattle.tables.specs.Records.{amount_from, word_number, record_with, record_of, line_with, line_of, lines_of, lines_held, struck_word, is_struck};

pub mod files;

use model::{Kind, Line, Word};

// ---- words
// The number of a word, by which the table of prices goes (docs/DECISIONS.md, 89): the words in document 01's order from 1; 0 is no word's.
pub fn number_of(word: Word) -> u16
    ensures { result ≡ word_number word }
{
    match word {
        Word::In => 1,
        Word::Const => 2,
        Word::Neg => 3,
        Word::Rot => 4,
        Word::Add => 5,
        Word::Mul => 6,
        Word::Out => 7,
        Word::Enc => 8,
        Word::Rs => 9,
        Word::Ms => 10,
        Word::Us => 11,
        Word::NoWord => 0,
    }
}

// What a line with this word can be used as: a ciphertext, but for `const`, `out`, `enc` and no word.
fn kind_of(word: Word) -> Kind
    ensures { result ≡ (entry word).kind }
{
    match word {
        Word::Const => Kind::Constant,
        Word::Enc => Kind::Encoded,
        Word::Out | Word::NoWord => Kind::Nothing,
        _ => Kind::Ciphertext,
    }
}

// Whether erasing strikes the lines with this word: a schedule's own words.
fn is_struck(word: Word) -> bool
    ensures { result ≡ struck_word word }
{
    matches!(word, Word::Enc | Word::Rs | Word::Ms | Word::Us)
}

// ---- records
// A line as its table holds it: its word, then its fields, 0 past them.
#[derive(Clone, Copy, PartialEq, Eq)]
pub struct Record {
    pub word: Word,
    pub first: u16,
    pub second: u16,
    pub third: u16,
}

// The record of a free line.
pub const FREE: Record = Record {
    word: Word::NoWord,
    first: 0,
    second: 0,
    third: 0,
};

// A rotation's amount as its record holds it.
pub fn shifted(amount: i16) -> u16
    ensures { amount_from result ≡ amount }
{
    ((amount as i32) + 32768) as u16
}

#[tactic(auto, using(crate::proofs::Amounts::amount_is))]
fn amount_from(number: u16) -> i16
    ensures { result ≡ amount_from number }
{
    ((number as i32) - 32768) as i16
}

// A constant number has 32 bits: its record holds the lower half of them and then the higher half.
pub fn low_half(number: u32) -> u16
    ensures { result ≡ number % 65536 }
{
    (number % 65536) as u16
}

pub fn high_half(number: u32) -> u16
    ensures { result ≡ number / 65536 }
{
    (number / 65536) as u16
}

fn from_halves(low: u16, high: u16) -> u32
    ensures { result ≡ low + 65536 * high }
{
    (low as u32) + 65536 * (high as u32)
}

// The record with this word and these numbers.
#[tactic(auto, unfolding(crate::specs::Records::line_of))]
pub fn record_with(word: Word, first: u16, second: u16, third: u16) -> Record
    ensures value { result ≡ record_with word first second third }
    ensures line { line_of result ≡ line_with word first second third }
{
    Record {
        word,
        first,
        second,
        third,
    }
}

// The record that holds a line. No From: it promises two facts, which that would take as ghost members.
pub fn record_of(line: Line) -> Record
    ensures value { result ≡ record_of line }
    ensures line { line_of result ≡ line }
{
    match line {
        Line::In => record_with(Word::In, 0, 0, 0),
        Line::Const(k) => record_with(Word::Const, low_half(k), high_half(k), 0),
        Line::Neg(a) => record_with(Word::Neg, a, 0, 0),
        Line::Rot(a, amount) => record_with(Word::Rot, a, shifted(amount), 0),
        Line::Add(a, b) => record_with(Word::Add, a, b, 0),
        Line::Mul(a, b) => record_with(Word::Mul, a, b, 0),
        Line::Out(a) => record_with(Word::Out, a, 0, 0),
        Line::Enc { of, scale, level } => record_with(Word::Enc, of, scale, level),
        Line::Rs(a, levels) => record_with(Word::Rs, a, levels, 0),
        Line::Ms(a, levels) => record_with(Word::Ms, a, levels, 0),
        Line::Us(a, bits) => record_with(Word::Us, a, bits, 0),
        Line::Free => record_with(Word::NoWord, 0, 0, 0),
    }
}

// The line that a record holds.
#[tactic(auto, unfolding(crate::specs::Records::line_of))]
fn line_of(r: Record) -> Line
    ensures { result ≡ line_of r }
{
    match r.word {
        Word::In => Line::In,
        Word::Const => Line::Const(from_halves(r.first, r.second)),
        Word::Neg => Line::Neg(r.first),
        Word::Rot => Line::Rot(r.first, amount_from(r.second)),
        Word::Add => Line::Add(r.first, r.second),
        Word::Mul => Line::Mul(r.first, r.second),
        Word::Out => Line::Out(r.first),
        Word::Enc => Line::Enc {
            of: r.first,
            scale: r.second,
            level: r.third,
        },
        Word::Rs => Line::Rs(r.first, r.second),
        Word::Ms => Line::Ms(r.first, r.second),
        Word::Us => Line::Us(r.first, r.second),
        Word::NoWord => Line::Free,
    }
}

// The line that record i holds.
#[tactic(auto, using(crate::proofs::Words::line_held))]
pub fn line_at(records: &[Record], i: usize) -> Line
    requires { i < length records.now }
    ensures { result ≡ get_or (lines_of records.now) i Free }
{
    line_of(records[i])
}

// The kind of value a among the lines of the first `count` records; past them there is nothing.
#[tactic(auto, using(crate::proofs::Words::held_laws))]
pub fn kind_at(records: &[Record], count: usize, a: u64) -> Kind
    requires { count ≤ length records.now }
    ensures { result ≡ kind_at (lines_held records.now count) a }
{
    if (count as u64) <= a {
        return Kind::Nothing;
    }
    kind_of(records[a as usize].word)
}

pub fn is_ciphertext(kind: Kind) -> bool
    ensures { result ≡ is_ciphertext kind }
{
    kind == Kind::Ciphertext
}

// Whether record a holds a bare constant.
#[tactic(auto, using(crate::proofs::Words::held_laws))]
pub fn is_constant(records: &[Record], a: usize) -> bool
    requires { a < length records.now }
    ensures { result ≡ is_constant (kind_at (lines_of records.now) a) }
{
    kind_of(records[a].word) == Kind::Constant
}

// Whether erasing strikes the line that record i holds.
#[tactic(auto, using(crate::proofs::Words::held_laws))]
pub fn struck_at(records: &[Record], i: usize) -> bool
    requires { i < length records.now }
    ensures { result ≡ is_struck (get_or (lines_of records.now) i Free) }
{
    is_struck(records[i].word)
}

// ---- comparing
// Whether two records hold the same line.
pub fn same_record(r: Record, s: Record) -> bool
    ensures { result ≡ same_line (line_of r) (line_of s) }
{
    line_of(r) == line_of(s)
}
