// What is kept beside a schedule that was read: for each value the last line that names it, and for each line how many ciphertexts are named later.
#![tactic(auto)]

ghost use Rattle.std.specs.Prelude.{◌≡◌, ◌+◌, ◌*◌, ◌≤◌, ◌<◌, length, get_or, set};
ghost use Rattle.operands.specs.Operands.{operands_in};
ghost use Rattle.spelling.specs.Put.{Put};
ghost use Rattle.tables.specs.Files.{schedule_lines};
ghost use Rattle.tables.specs.Records.{lines_held, IsSchedule};
ghost use Rattle.liveness.specs.Live.{one_if, two_bytes};
ghost use Rattle.liveness.specs.Kept.{set_all, AllBelow, HasEntries, HasCounts, starts_live, IsLiveness, IsLargest, pairs_to};

use operands::OperandsOf;
use spelling::sinks::{Buffer, Sink};
use tables::Record;
use tables::files::ScheduleTable;

// What is kept beside a schedule's table: for each value the last line that names it, and for each line how many ciphertexts are live after it.
#[derive(Drop)]
pub struct Liveness {
    pub entries: [u16; 1792],
    pub counts: [u16; 1792],
}

// ---- entries; here and for the counts no struct of the table, since which header it has is not asked
// Line i is the last so far that names these values.
fn name_values(named: OperandsOf, i: u16, entries: &mut [u16; 1792])
    requires all_below { AllBelow 1792 (operands_in named) }
    requires entries_len { length entries.old ≡ 1792 }
    ensures { entries.new ≡ set_all entries.old (operands_in named) i }
{
    match named {
        OperandsOf::None => {}
        OperandsOf::One(a) => {
            entries[a as usize] = i;
        }
        OperandsOf::Two(a, b) => {
            entries[a as usize] = i;
            entries[b as usize] = i;
        }
    }
}

// The entry of each value: its own line, until a later line names it.
pub fn fill_entries(schedule: &[Record], count: usize, entries: &mut [u16; 1792])
    requires schedule { IsSchedule schedule.now count }
    requires entries_len { length entries.old ≡ 1792 }
    ensures { HasEntries (lines_held schedule.now count) entries.new }
{
    for i in 0..count {
        let line = tables::line_at(schedule, i);
        let named = operands::operands_of(line);
        entries[i] = i as u16;
        name_values(named, i as u16, entries);
    }
}

// ---- counts
// Whether value v is live after its own line: a ciphertext that a later line names, by its entry.
#[tactic(auto, using(crate::proofs::Counting::starts_laws))]
fn starts_live(schedule: &[Record], count: usize, v: usize, entry: u16) -> bool
    requires { IsSchedule schedule.now count }
    ensures { result ≡ starts_live (lines_held schedule.now count) v entry }
{
    if (entry as usize) <= v {
        return false;
    }
    tables::is_ciphertext(tables::kind_at(schedule, count, v as u64))
}

// How many are live with value v, which then ends with the line of its entry. It is a branch, since most values are named later: without one the walk over
// the lines took 1.3 to 2 times as long.
#[tactic(auto, using(crate::proofs::Counting::begin_laws))]
fn begin(
    schedule: &[Record],
    count: usize,
    v: usize,
    entry: u16,
    live: u16,
    ends: &mut [u16; 1792],
) -> u16
    requires schedule { IsSchedule schedule.now count }
    requires bound { entry < 1792 }
    requires live_bound { live < 1792 }
    requires ends_len { length ends.old ≡ 1792 }
    requires bound_2 { get_or ends.old entry 0 < 1792 }
    ensures value { result ≡ live + one_if (starts_live (lines_held schedule.now count) v entry) }
    ensures ends { ends.new ≡ set ends.old entry (get_or ends.old entry 0 + one_if (starts_live (lines_held schedule.now count) v entry)) }
{
    if starts_live(schedule, count, v, entry) {
        ends[entry as usize] += 1;
        return live + 1;
    }
    live
}

// The count after each line. A ciphertext that is named later is live from its own line on, and no longer after the line of its entry.
pub fn fill_counts(
    schedule: &[Record],
    count: usize,
    entries: &[u16; 1792],
    counts: &mut [u16; 1792],
)
    requires schedule { IsSchedule schedule.now count }
    requires has_entries { HasEntries (lines_held schedule.now count) entries.now }
    requires counts_len { length counts.old ≡ 1792 }
    ensures { HasCounts (lines_held schedule.now count) counts.new }
{
    let mut ends = [0u16; 1792];
    let mut live: u16 = 0;
    for i in 0..count {
        live = begin(schedule, count, i, entries[i], live, &mut ends);
        live -= ends[i];
        counts[i] = live;
    }
}

impl Liveness {
    // Both, in two walks over the lines.
    pub fn fill(&mut self, schedule: &ScheduleTable)
        requires entries_len { length self.old.entries ≡ 1792 }
        requires counts_len { length self.old.counts ≡ 1792 }
        ensures { IsLiveness (schedule_lines schedule.now) self.new }
    {
        fill_entries(schedule.records, schedule.count, &mut self.entries);
        fill_counts(
            schedule.records,
            schedule.count,
            &self.entries,
            &mut self.counts,
        );
    }
}

// The largest of the first numbers of an array, 0 where there is none.
#[tactic(auto, using(crate::proofs::Peaks::finding_laws))]
pub fn largest(numbers: &[u16; 1792], count: usize) -> u16
    requires count_bound { count ≤ 1792 }
    requires numbers_len { length numbers.now ≡ 1792 }
    ensures { IsLargest numbers.now count result }
{
    let mut most: u16 = 0;
    for i in 0..count {
        most = most.max(numbers[i]);
    }
    most
}

// ---- bytes
// Two bytes of a number, the lowest first.
fn put_two_bytes<S: Sink>(sink: &mut S, n: u16)
    requires { S.can_take sink.old (two_bytes n) }
    ensures { S.took sink.old (two_bytes n) sink.new }
{
    sink.put_byte((n % 256) as u8);
    sink.put_byte((n / 256) as u8);
}

// The entry and the count of each value, one value after another.
fn put_pairs<S: Sink>(sink: &mut S, entries: &[u16; 1792], counts: &[u16; 1792], count: usize)
    requires count_bound { count ≤ 1792 }
    requires entries_len { length entries.now ≡ 1792 }
    requires counts_len { length counts.now ≡ 1792 }
    requires room { S.can_take sink.old (pairs_to entries.now counts.now count) }
    ensures { S.took sink.old (pairs_to entries.now counts.now count) sink.new }
{
    for i in 0..count {
        put_two_bytes(sink, entries[i]);
        put_two_bytes(sink, counts[i]);
    }
}

// All of it, at the front of the buffer; returns how many bytes that is.
pub fn put_live<'a>(
    out: &mut [u8],
    entries: &'a [u16; 1792],
    counts: &'a [u16; 1792],
    count: usize,
) -> usize
    requires count_bound { count ≤ 1792 }
    requires entries_len { length entries.now ≡ 1792 }
    requires counts_len { length counts.now ≡ 1792 }
    requires count_in_bounds { 4 * count ≤ length out.old }
    ensures { Put out.old 0 (pairs_to entries.now counts.now count) result out.new }
{
    let mut buffer = Buffer { bytes: out, at: 0 };
    put_pairs(&mut buffer, entries, counts, count);
    buffer.at
}
