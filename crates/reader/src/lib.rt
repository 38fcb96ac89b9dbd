// Reads a text into a table in one pass: the header line, then one line after another until the first that is refused.
#![tactic(auto)]

ghost use Rattle.std.specs.Prelude.{◌≡◌, ◌+◌, [], ◌≤◌, ◌<◌, T, length, drop};
ghost use Rattle.rows.specs.Lines.{lines_of};
ghost use Rattle.model.specs.declared.Grammar.TheVariants.{Circuit};
ghost use Rattle.model.specs.Scales.{header_in_range};
ghost use Rattle.model.specs.Words.{has_word};
ghost use Rattle.text.specs.Files.{read_text, circuit_context, schedule_context, erase_context};
ghost use Rattle.listings.specs.Listings.{read_listing};
ghost use Rattle.listings.specs.Held.{held_reading};
ghost use Rattle.tables.specs.Records.{free_records};
ghost use Rattle.reader.specs.Reads.{past_limits, kept_with, rest_from, reading_held, read_by, reading_of, circuit_told, schedule_told, listing_told, Filled};

use listings::Levels;
use model::{Fault, Grammar, Header, Refusal, Word};
use tables::Record;
use tables::files::{CircuitTable, ListingTable, ScheduleTable};
use text::Context;

// How many lines have a circuit's word, with one that has this word.
fn kept_with(kept: usize, word: Word) -> usize
    requires { kept < 1792 }
    ensures { result ≡ kept_with kept (has_word Circuit word) }
{
    if words::is_kept(word) {
        return kept + 1;
    }
    kept
}

// Whether a line with this word is one too many, after so many lines and so many with a circuit's word.
#[tactic(auto, unfolding(crate::specs::Reads::past_limits))]
fn past_limits(context: Context, count: usize, kept: usize, word: Word) -> bool
    ensures { result ≡ past_limits context count kept (has_word Circuit word) }
{
    if context.limit <= count {
        return true;
    }
    if kept < context.keptlimit {
        return false;
    }
    words::is_kept(word)
}

// A file that was read: its header, and how many lines there are, which stand in the records that are lent.
#[derive(Clone, Copy)]
pub struct FileTable {
    pub header: Header,
    pub count: usize,
}

// The line after so many, refused.
fn refused(fault: Fault, count: usize) -> Result<FileTable, Refusal>
    requires { count ≤ 1792 }
    ensures { result ≡ Err (record { fault = fault; place = count + 2 }) }
{
    Err(Refusal {
        fault,
        place: (count as u32) + 2,
    })
}

// The lines from `start` on, into records that are free, in a file that counts levels so.
fn read_lines(
    levels: Levels,
    context: Context,
    header: Header,
    text: &[u8],
    start: usize,
    records: &mut [Record],
) -> Result<FileTable, Refusal>
    requires t { T (header_in_range header) }
    requires limit_bound { context.limit ≤ 1792 }
    requires start_in_bounds { start ≤ length text.now }
    requires records_value { records.old ≡ free_records }
    ensures records_after { reading_of result records.new ≡ reading_held levels (rest_from levels context header [] (lines_of (drop start text.now))) }
    ensures filled { Filled context.limit result records.new }
{
    let grammar = context.grammar;
    let mut count: usize = 0;
    let mut kept: usize = 0;
    let mut at = start;
    // Where a line ends is known once it is read, so the turns are not counted.
    while at < text.len() {
        let found = words::word_at(levels, text, at);
        let word = found.word;
        if past_limits(context, count, kept, word) {
            return refused(Fault::TooManyLines, count);
        }
        // By match: with `?` in its place a program that read files of `in` lines took 1.06 times the instructions.
        match lines::read_line(levels, grammar, header, records, count, text, found) {
            Err(refusal) => return Err(refusal),
            Ok(line) => {
                records[count] = line.held;
                count += 1;
                kept = kept_with(kept, line.held.word);
                at = line.end;
            }
        }
    }
    Ok(FileTable { header, count })
}

// A whole text: its header line, then its lines, into records that are free.
#[tactic(auto, using(crate::proofs::HeaderLaws::file_laws))]
pub fn read_file(
    levels: Levels,
    context: Context,
    text: &[u8],
    records: &mut [Record],
) -> Result<FileTable, Refusal>
    requires limit_bound { context.limit ≤ 1792 }
    requires records_value { records.old ≡ free_records }
    ensures records_after { reading_of result records.new ≡ read_by levels context text.now }
    ensures filled { Filled context.limit result records.new }
{
    let grammar = context.grammar;
    let (header, end) = headers::read_header(levels, grammar, text)?;
    read_lines(levels, context, header, text, end, records)
}

// What a circuit and a schedule may have; and a schedule that is to be erased: a 257th line that would be kept is one too many.
const CIRCUIT: Context = Context {
    grammar: Grammar::Circuit,
    limit: 256,
    keptlimit: 256,
};

const SCHEDULE: Context = Context {
    grammar: Grammar::Schedule,
    limit: 1792,
    keptlimit: 1792,
};

const ERASING: Context = Context {
    grammar: Grammar::Schedule,
    limit: 1792,
    keptlimit: 256,
};

// ---- four functions each, since each kind of file has a promise and a table of its own
// A circuit.
pub fn read_circuit(text: &[u8], records: &mut [Record]) -> Result<FileTable, Refusal>
    requires { records.old ≡ free_records }
    ensures records_after { reading_of result records.new ≡ read_text circuit_context text.now }
    ensures filled { Filled 256 result records.new }
{
    read_file(Levels::Falling, CIRCUIT, text, records)
}

// A schedule.
pub fn read_schedule(text: &[u8], records: &mut [Record]) -> Result<FileTable, Refusal>
    requires { records.old ≡ free_records }
    ensures records_after { reading_of result records.new ≡ read_text schedule_context text.now }
    ensures filled { Filled 1792 result records.new }
{
    read_file(Levels::Falling, SCHEDULE, text, records)
}

// A schedule that is to be erased.
pub fn read_erase(text: &[u8], records: &mut [Record]) -> Result<FileTable, Refusal>
    requires { records.old ≡ free_records }
    ensures records_after { reading_of result records.new ≡ read_text erase_context text.now }
    ensures filled { Filled 1792 result records.new }
{
    read_file(Levels::Falling, ERASING, text, records)
}

// A listing in the rising-level dialect, limited as a schedule that is to be erased. Its levels are held counted down, and a `ds` as a rescale by 0.
pub fn read_listing(text: &[u8], records: &mut [Record]) -> Result<FileTable, Refusal>
    requires { records.old ≡ free_records }
    ensures records_after { reading_of result records.new ≡ held_reading (read_listing text.now) }
    ensures filled { Filled 1792 result records.new }
{
    read_file(Levels::Rising, ERASING, text, records)
}

// ---- the same, where the records are then lent by the file's table
pub fn lend_circuit<'a>(text: &[u8], records: &'a mut [Record]) -> Result<CircuitTable<'a>, Refusal>
    requires { records.old ≡ free_records }
    ensures { circuit_told result ≡ read_text circuit_context text.now }
{
    let FileTable { header, count } = read_circuit(text, records)?;
    Ok(CircuitTable {
        header,
        records,
        count,
    })
}

pub fn lend_schedule<'a>(
    text: &[u8],
    records: &'a mut [Record],
) -> Result<ScheduleTable<'a>, Refusal>
    requires { records.old ≡ free_records }
    ensures { schedule_told result ≡ read_text schedule_context text.now }
{
    let FileTable { header, count } = read_schedule(text, records)?;
    Ok(ScheduleTable {
        header,
        records,
        count,
    })
}

pub fn lend_erase<'a>(text: &[u8], records: &'a mut [Record]) -> Result<ScheduleTable<'a>, Refusal>
    requires { records.old ≡ free_records }
    ensures { schedule_told result ≡ read_text erase_context text.now }
{
    let FileTable { header, count } = read_erase(text, records)?;
    Ok(ScheduleTable {
        header,
        records,
        count,
    })
}

pub fn lend_listing<'a>(text: &[u8], records: &'a mut [Record]) -> Result<ListingTable<'a>, Refusal>
    requires { records.old ≡ free_records }
    ensures { listing_told result ≡ held_reading (read_listing text.now) }
{
    let FileTable { header, count } = read_listing(text, records)?;
    Ok(ListingTable {
        header,
        records,
        count,
    })
}
