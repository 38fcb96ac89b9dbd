// Reading one line of a file where it stands in the text: to the numbers of its record, or to a refusal's number and place. Of the lines before
// it no more is asked than the kinds of those that it names.
#![tactic(auto)]

ghost use Rattle.std.specs.Prelude.{◌≡◌, map, ◌+◌, ◌≤◌, true, T, pos, length, drop};
ghost use Rattle.std.specs.Int.Signed.{non_neg};
ghost use Rattle.rows.specs.Rows.{place_of};
ghost use Rattle.model.specs.Scales.{header_in_range};
ghost use Rattle.forms.specs.Along.{line_in, numbers_in};
ghost use Rattle.forms.specs.Asked.{read_as, numbers_to};
ghost use Rattle.tables.specs.Records.{lines_held};
ghost use Rattle.words.specs.Words.{word_found, listed_word};
ghost use Rattle.judging.specs.Judging.{line_read, line_to};
ghost use Rattle.lines.specs.Lines.{turns_level, fields_asked, asked_by, level_held, word_judged};

use forms::{FieldsAsked, Numbers};
use judging::{FormedLine, StoredLine};
use listings::Levels;
use model::{Fault, Grammar, Header, Refusal};
use tables::Record;
use words::{WordAt, WordRow};

// Whether a line with so many fields has a level that is counted up: of a listing's words only `enc` has three.
#[tactic(auto, unfolding(crate::specs::Lines::turns_level))]
fn turns_level(levels: Levels, fields: usize) -> bool
    ensures { result ≡ turns_level levels fields }
{
    levels == Levels::Rising && fields == 3
}

// What a word's row asks of the fields after it, in a file with this top level: a level that is counted up may be 0.
fn fields_asked(row: WordRow, turns: bool, top: u32) -> FieldsAsked
    ensures { result ≡ fields_asked turns row top }
{
    FieldsAsked {
        count: row.fields,
        operands: row.operands,
        least: if turns { 0 } else { row.least },
        largest: row.largest,
        third: top,
    }
}

// The numbers of these fields, in the line with this place.
fn numbers_of(
    place: u32,
    text: &[u8],
    start: usize,
    row: WordRow,
    turns: bool,
    top: u32,
) -> Result<Numbers, Refusal>
    requires { row.fields ≤ 3 }
    ensures { result ≡ numbers_to (asked_by turns row top) place (start + length (line_in (drop start text.now))) (numbers_in (map read_as (asked_by turns row top)) (drop start text.now)) }
{
    forms::numbers_at(place, text, start, &fields_asked(row, turns, top))
}

// A line's third number as its record holds it, a level counted down, unless the scale before it or the level is outside its range.
#[tactic(auto, unfolding(crate::specs::Lines::level_held))]
fn level_held(place: u32, turns: bool, top: u32, second: i64, third: i64) -> Result<i64, Refusal>
    requires { turns ≡ true → T (non_neg third) }
    ensures { result ≡ level_held place turns top second third }
{
    if !turns {
        return Ok(third);
    }
    let level = (top as i64) - third;
    if second < 1 || level < 1 {
        return Err(Refusal {
            fault: Fault::NumberOutOfRange,
            place,
        });
    }
    Ok(level)
}

// One line, after those of the first `count` records, by the word that it begins with, in a file that counts levels so.
#[tactic(auto, using(crate::proofs::ReadLaws::line_laws, crate::proofs::ReadLaws::past_within))]
pub fn read_line(
    levels: Levels,
    grammar: Grammar,
    header: Header,
    records: &[Record],
    count: usize,
    text: &[u8],
    found: WordAt,
) -> Result<StoredLine, Refusal>
    requires t { T (header_in_range header) }
    requires count_in_bounds { count ≤ length records.now }
    requires count_bound { count ≤ 1792 }
    requires found_value { found ≡ word_found (listed_word found) found.end }
    ensures { line_read result ≡ line_to (place_of count) (found.end + length (line_in (drop found.end text.now)) + 1) (word_judged levels grammar header (lines_held records.now count) (listed_word found) (drop found.end text.now)) }
{
    let place = (count as u32) + 2;
    let word = found.word;
    if !words::is_word_of(grammar, word) {
        return Err(Refusal {
            fault: Fault::NotOfForm,
            place,
        });
    }
    let row = found.row;
    let turns = turns_level(levels, row.fields);
    let numbers = numbers_of(place, text, found.end, row, turns, header.top)?;
    let level = level_held(place, turns, header.top, numbers.second, numbers.third)?;
    let line = FormedLine {
        word,
        asks: row.asks,
        first: numbers.first,
        second: numbers.second,
        third: level,
        end: numbers.end + 1,
    };
    judging::judge(grammar, records, count, line)
}
