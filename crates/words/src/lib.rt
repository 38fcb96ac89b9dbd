// The words of the lines: which one stands at a place, and what its row says of the fields after it.
#![tactic(auto)]

ghost use Rattle.std.specs.Prelude.{◌≡◌, ◌+◌, ◌≤◌, length, drop};
ghost use Rattle.model.specs.declared.Grammar.TheVariants.{Circuit};
ghost use Rattle.model.specs.declared.Word.TheVariants.{Const, Rot};
ghost use Rattle.model.specs.Words.{entry, has_word};
ghost use Rattle.model.specs.Numbering.{same_word};
ghost use Rattle.words.specs.Words.{row_of, candidate_of, word_if, spelled_at, begins_downscale, listed_in, word_found, past_word};

use listings::Levels;
use model::{Grammar, Word};

// What a word asks of its operands, which are its first fields.
#[derive(Clone, Copy)]
pub enum OperandsAsked {
    NoOperand,
    Ciphertext,
    Constant,
    Pair,
}

// What a word's row says of the fields after it: how many there are; how many of them, the first ones, are operands; the least and the largest that each
// other number may be, but for the level of an encoded constant, which goes up to the top level; and what is asked of the operands.
#[derive(Clone, Copy)]
pub struct WordRow {
    pub fields: usize,
    pub operands: usize,
    pub least: i64,
    pub largest: u32,
    pub asks: OperandsAsked,
}

// A line's first field: which word it is, and the place past it.
#[derive(Clone, Copy)]
pub struct Spelled {
    pub word: Word,
    pub end: usize,
}

// The same, with the word's row.
#[derive(Clone, Copy)]
pub struct WordAt {
    pub word: Word,
    pub row: WordRow,
    pub end: usize,
}

// A row by its numbers in order: the table below stays one line a word, and under 40 lines.
fn row(fields: usize, operands: usize, least: i64, largest: u32, asks: OperandsAsked) -> WordRow
    ensures { result ≡ record { fields = fields; operands = operands; least = least; largest = largest; asks = asks } }
{
    WordRow {
        fields,
        operands,
        least,
        largest,
        asks,
    }
}

// The rows of the words.
fn row_of(word: Word) -> WordRow
    ensures { result ≡ row_of word }
{
    match word {
        Word::In => row(0, 0, 0, 0, OperandsAsked::NoOperand),
        Word::Const => row(1, 0, 0, 4294967295, OperandsAsked::NoOperand),
        Word::Neg => row(1, 1, 0, 0, OperandsAsked::Ciphertext),
        Word::Rot => row(2, 1, -32767, 32767, OperandsAsked::Ciphertext),
        Word::Add => row(2, 2, 0, 0, OperandsAsked::Pair),
        Word::Mul => row(2, 2, 0, 0, OperandsAsked::Pair),
        Word::Out => row(1, 1, 0, 0, OperandsAsked::Ciphertext),
        Word::Enc => row(3, 1, 1, 3600, OperandsAsked::Constant),
        Word::Rs => row(2, 1, 1, 60, OperandsAsked::Ciphertext),
        Word::Ms => row(2, 1, 1, 60, OperandsAsked::Ciphertext),
        Word::Us => row(2, 1, 1, 3600, OperandsAsked::Ciphertext),
        Word::NoWord => row(0, 0, 0, 0, OperandsAsked::NoOperand),
    }
}

// ---- the word at a place
// The only word that can begin with the first two bytes here: one comparison of bytes is left.
fn candidate(text: &[u8], at: usize) -> Word
    requires { at ≤ length text.now }
    ensures { result ≡ candidate_of (drop at text.now) }
{
    if text.len() - at < 2 {
        return Word::NoWord;
    }
    let s = text[at + 1] == b's';
    match text[at] {
        b'i' => Word::In,
        b'c' => Word::Const,
        b'n' => Word::Neg,
        b'r' => if s { Word::Rs } else { Word::Rot },
        b'a' => Word::Add,
        b'm' => if s { Word::Ms } else { Word::Mul },
        b'o' => Word::Out,
        b'e' => Word::Enc,
        b'u' => Word::Us,
        _ => Word::NoWord,
    }
}

// A word with these bytes, if they are the line's first field.
fn spelled_as(text: &[u8], at: usize, word: Word, bytes: &[u8]) -> Spelled
    requires at_in_bounds { at ≤ length text.now }
    requires bytes_value { bytes.now ≡ (entry word).bytes }
    ensures { result ≡ spelled_at at (word_if word (drop at text.now)) }
{
    if !forms::is_word_at(text, at, bytes) {
        return Spelled {
            word: Word::NoWord,
            end: at,
        };
    }
    Spelled {
        word,
        end: at + bytes.len(),
    }
}

// The same of each word.
#[tactic(auto, using(crate::proofs::WordLaws::bytes_laws))]
fn spelled_at(word: Word, text: &[u8], at: usize) -> Spelled
    requires { at ≤ length text.now }
    ensures { result ≡ spelled_at at (word_if word (drop at text.now)) }
{
    match word {
        Word::In => spelled_as(text, at, word, b"in"),
        Word::Const => spelled_as(text, at, word, b"const"),
        Word::Neg => spelled_as(text, at, word, b"neg"),
        Word::Rot => spelled_as(text, at, word, b"rot"),
        Word::Add => spelled_as(text, at, word, b"add"),
        Word::Mul => spelled_as(text, at, word, b"mul"),
        Word::Out => spelled_as(text, at, word, b"out"),
        Word::Enc => spelled_as(text, at, word, b"enc"),
        Word::Rs => spelled_as(text, at, word, b"rs"),
        Word::Ms => spelled_as(text, at, word, b"ms"),
        Word::Us => spelled_as(text, at, word, b"us"),
        Word::NoWord => Spelled { word, end: at },
    }
}

// Whether a listing's line begins with `ds`, which no other file has.
#[tactic(auto, using(crate::proofs::WordLaws::found_laws))]
fn is_downscale(levels: Levels, text: &[u8], at: usize) -> bool
    requires { at ≤ length text.now }
    ensures { result ≡ begins_downscale levels (drop at text.now) }
{
    match levels {
        Levels::Falling => false,
        Levels::Rising => forms::is_word_at(text, at, b"ds"),
    }
}

// The word that a line begins with, in a file that counts levels so. A `ds` is held as a rescale, with one field.
pub fn word_at(levels: Levels, text: &[u8], at: usize) -> WordAt
    requires { at ≤ length text.now }
    ensures { result ≡ word_found (listed_in levels (drop at text.now)) (past_word at (listed_in levels (drop at text.now))) }
{
    if is_downscale(levels, text, at) {
        return WordAt {
            word: Word::Rs,
            row: row(1, 1, 0, 0, OperandsAsked::Ciphertext),
            end: at + 2,
        };
    }
    let found = spelled_at(candidate(text, at), text, at);
    let word = found.word;
    WordAt {
        word,
        row: row_of(word),
        end: found.end,
    }
}

// Whether the word's first field is a constant number.
pub fn takes_constant(word: Word) -> bool
    ensures { result ≡ same_word word Const }
{
    word == Word::Const
}

// Whether the word's second field is a rotation's amount.
pub fn takes_amount(word: Word) -> bool
    ensures { result ≡ same_word word Rot }
{
    word == Word::Rot
}

// Whether a circuit has the word, and erasing keeps it.
pub fn is_kept(word: Word) -> bool
    ensures { result ≡ has_word Circuit word }
{
    matches!(
        word,
        Word::In | Word::Const | Word::Neg | Word::Rot | Word::Add | Word::Mul | Word::Out
    )
}

// Whether a file of this grammar has the word. A schedule has them all.
pub fn is_word_of(grammar: Grammar, word: Word) -> bool
    ensures { result ≡ has_word grammar word }
{
    match grammar {
        Grammar::Circuit => is_kept(word),
        Grammar::Schedule => word != Word::NoWord,
    }
}
