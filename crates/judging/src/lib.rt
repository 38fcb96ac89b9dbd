// Operands and kinds of a line that is of the form and whose numbers are in their ranges, in this order; and what its record then holds.
#![tactic(auto)]

pub mod kinds;

ghost use Rattle.std.specs.Prelude.{◌≡◌, [], ◌∷◌, ◌≤◌, T, length};
ghost use Rattle.std.specs.Int.Signed.{non_neg};
ghost use Rattle.ints.specs.Parts.{positive};
ghost use Rattle.rows.specs.Rows.{place_of, read};
ghost use Rattle.model.specs.Files.{line_of, kind_at};
ghost use Rattle.model.specs.Refusals.{told};
ghost use Rattle.tables.specs.Records.{second_held, lines_held};
ghost use Rattle.words.specs.Words.{row_of};
ghost use Rattle.judging.specs.Judging.{line_read, line_stored, line_to, judged_as, fitness_by, SecondFits, NumbersFit};

use model::{Fault, Grammar, Line, Refusal, Word};
use tables::Record;
use words::OperandsAsked;

// A line that was read: the record that holds it, and the place past its line feed.
#[derive(Clone, Copy)]
pub struct StoredLine {
    pub held: Record,
    pub end: usize,
}

// A line that is of the form and whose numbers are in their ranges: its word, what that asks of its operands, the numbers of its fields, 0 past them, and
// the place past its line feed.
#[derive(Clone, Copy)]
pub struct FormedLine {
    pub word: Word,
    pub asks: OperandsAsked,
    pub first: i64,
    pub second: i64,
    pub third: i64,
    pub end: usize,
}

// Whether the line's operands are what its word asks for; only an operand that is asked for is looked up.
fn operands_fit(
    grammar: Grammar,
    asked: OperandsAsked,
    records: &[Record],
    count: usize,
    first: i64,
    second: i64,
) -> Result<(), Fault>
    requires count_in_bounds { count ≤ length records.now }
    requires natural { T (non_neg first) }
    requires unsigned { asked ≡ OperandsAsked.Pair → T (non_neg second) }
    ensures { result ≡ fitness_by grammar asked (kind_at (lines_held records.now count) (positive first)) (kind_at (lines_held records.now count) (positive second)) }
{
    match asked {
        OperandsAsked::NoOperand => Ok(()),
        OperandsAsked::Ciphertext => kinds::ciphertext(tables::kind_at(
            records,
            count,
            first as u64,
        )),
        OperandsAsked::Constant => kinds::constant(tables::kind_at(records, count, first as u64)),
        OperandsAsked::Pair => {
            let one = tables::kind_at(records, count, first as u64);
            let two = tables::kind_at(records, count, second as u64);
            kinds::pair(grammar, one, two)
        }
    }
}

// A line's second number as its record holds it.
fn second_number(word: Word, second: i64) -> u16
    requires { SecondFits word second }
    ensures { second_held word result ≡ second }
{
    if words::takes_amount(word) {
        return tables::shifted(second as i16);
    }
    second as u16
}

// A line whose numbers fit its record.
#[tactic(auto, using(crate::proofs::JudgeLaws::stored_laws))]
fn stored(line: FormedLine) -> StoredLine
    requires { NumbersFit line.word line.first line.second line.third }
    ensures { line_stored result ≡ (line_of line.word (line.first ∷ line.second ∷ line.third ∷ []), line.end) }
{
    let word = line.word;
    if words::takes_constant(word) {
        return StoredLine {
            held: tables::record_of(Line::Const(line.first as u32)),
            end: line.end,
        };
    }
    StoredLine {
        held: tables::record_with(
            word,
            line.first as u16,
            second_number(word, line.second),
            line.third as u16,
        ),
        end: line.end,
    }
}

// A line after those of the first `count` records.
#[tactic(auto, using(crate::proofs::JudgeLaws::verdicts))]
pub fn judge(
    grammar: Grammar,
    records: &[Record],
    count: usize,
    line: FormedLine,
) -> Result<StoredLine, Refusal>
    requires count_in_bounds { count ≤ length records.now }
    requires count_bound { count ≤ 1792 }
    requires asks_value { line.asks ≡ (row_of line.word).asks }
    requires numbers_fit { NumbersFit line.word line.first line.second line.third }
    ensures { line_read result ≡ line_to (place_of count) line.end (judged_as grammar (lines_held records.now count) (line_of line.word (line.first ∷ line.second ∷ line.third ∷ []))) }
{
    match operands_fit(grammar, line.asks, records, count, line.first, line.second) {
        Ok(()) => Ok(stored(line)),
        Err(fault) => Err(Refusal {
            fault,
            place: (count as u32) + 2,
        }),
    }
}
