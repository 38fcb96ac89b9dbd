// From a schedule to a listing, from bytes to reply: all that writes the dialect.
#![tactic(auto)]

ghost use Rattle.std.specs.Prelude.{◌≡◌, map, T, length};
ghost use Rattle.model.specs.declared.Grammar.TheVariants.{Schedule};
ghost use Rattle.model.specs.Scales.{header_in_range};
ghost use Rattle.model.specs.Files.{in_range};
ghost use Rattle.text.specs.Tables.{TableFormed};
ghost use Rattle.listings.specs.Listings.{turned};
ghost use Rattle.tables.specs.Records.{line_of, lines_held, held};
ghost use Rattle.replies.specs.Told.{reply_to};
ghost use Rattle.services.specs.Outcomes.{Replied};
ghost use Rattle.risingwriter.specs.Calls.{to_rising_outcome};

use model::{Header, Word};
use reader::FileTable;
use replies::FileRefusal;
use services::Reply;
use tables::Record;
use tables::files::ScheduleTable;

// The record of a line with its level counted up from 0: only `enc` has one.
#[tactic(auto, using(crate::proofs::Levels::record_laws), unfolding(tables::specs::Records::line_of))]
fn turned_record(header: Header, r: Record) -> Record
    requires t { T (header_in_range header) }
    requires t_2 { T (in_range header (line_of r)) }
    ensures { line_of result ≡ turned header (line_of r) }
{
    if r.word != Word::Enc {
        return r;
    }
    Record {
        third: (header.top as u16) - r.third,
        ..r
    }
}

// The same of every line of a table. It changes the records, which a struct of the table only lends.
#[tactic(auto, using(crate::proofs::Levels::turning_laws))]
fn turn_levels(header: Header, records: &mut [Record], count: usize)
    requires { TableFormed Schedule (held header records.old count) }
    ensures { lines_held records.new count ≡ map (turned header) (lines_held records.old count) }
{
    for i in 0..count {
        let record = records[i];
        records[i] = turned_record(header, record);
    }
}

// The listing of a schedule. Nothing is written before the text is known to fit. The records are not lent by a table, since their levels are turned here.
#[tactic(auto, using(crate::proofs::Steps::step_needs, crate::proofs::Steps::step_returns))]
fn put_rising(schedule: &[u8], out: &mut [u8]) -> Result<u32, FileRefusal>
    ensures { Replied (to_rising_outcome schedule.now) out.old (reply_to result) out.new }
{
    let mut records = [tables::FREE; 1792];
    let FileTable { header, count } = reader::read_erase(schedule, &mut records)?;
    let table = ScheduleTable {
        header,
        records: &records,
        count,
    };
    let mut scales = [0u16; 1792];
    rules::rules_answer(&rules::listing_of(&table), &mut scales)?;
    turn_levels(header, &mut records, count);
    replies::put_text(out, b"rising", header, &records, count)
}

// Makes a listing of a schedule.
pub fn to_rising(schedule: &[u8], out: &mut [u8]) -> Reply
    ensures { Replied (to_rising_outcome schedule.now) out.old result out.new }
{
    replies::reply(put_rising(schedule, out))
}
