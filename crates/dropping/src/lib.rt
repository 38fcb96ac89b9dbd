// What a host may drop, from the bytes of a schedule to the reply. Reading is all that is asked of the schedule.
#![tactic(auto)]

ghost use Rattle.std.specs.Prelude.{◌≡◌};
ghost use Rattle.tables.specs.Files.{schedule_lines};
ghost use Rattle.services.specs.Outcomes.{writes, tells, reply_of, Replied};
ghost use Rattle.liveness.specs.Live.{live_bytes};
ghost use Rattle.liveness.specs.Kept.{peak_of};
ghost use Rattle.dropping.specs.Calls.{drop_answer, count_after, may_drop_outcome, live_after_outcome, live_peak_outcome, live_outcome};

use liveness::Liveness;
use model::{Fault, Refusal};
use services::Reply;
use tables::files::ScheduleTable;

// A line or a value that the schedule lacks.
const LACKING: Refusal = Refusal {
    fault: Fault::NoUsableLine,
    place: 0,
};

const TOO_SHORT: Refusal = Refusal {
    fault: Fault::BufferTooShort,
    place: 0,
};

// ---- on a schedule that was read
// The answer from the value's one entry.
#[tactic(auto, using(crate::proofs::Laws::table_laws))]
fn drop_answer(schedule: &ScheduleTable, value: u32, line: u32) -> Reply
    ensures { result ≡ reply_of (drop_answer value line (schedule_lines schedule.now)) }
{
    if (schedule.count as u64) <= (value as u64) {
        return replies::refused(0, LACKING);
    }
    if (schedule.count as u64) <= (line as u64) {
        return replies::refused(0, LACKING);
    }
    let mut entries = [0u16; 1792];
    liveness::fill_entries(schedule.records, schedule.count, &mut entries);
    if (entries[value as usize] as u32) <= line {
        return replies::told(1);
    }
    replies::told(0)
}

// The count after a line.
#[tactic(auto, using(crate::proofs::Laws::table_laws))]
fn count_after(schedule: &ScheduleTable, line: u32) -> Reply
    ensures { result ≡ reply_of (count_after line (schedule_lines schedule.now)) }
{
    if (schedule.count as u64) <= (line as u64) {
        return replies::refused(0, LACKING);
    }
    let mut live = Liveness {
        entries: [0u16; 1792],
        counts: [0u16; 1792],
    };
    live.fill(schedule);
    replies::told(live.counts[line as usize] as u32)
}

// The largest count.
#[tactic(auto, using(crate::proofs::Laws::table_laws))]
fn largest_count(schedule: &ScheduleTable) -> Reply
    ensures { result ≡ reply_of (tells (peak_of (schedule_lines schedule.now))) }
{
    let mut live = Liveness {
        entries: [0u16; 1792],
        counts: [0u16; 1792],
    };
    live.fill(schedule);
    replies::told(liveness::largest(&live.counts, schedule.count) as u32)
}

// Entries and counts, four bytes for each value, written only when they are known to fit.
#[tactic(auto, using(crate::proofs::Laws::table_laws))]
fn lend_live(out: &mut [u8], schedule: &ScheduleTable) -> Reply
    ensures { Replied (writes (live_bytes (schedule_lines schedule.now))) out.old result out.new }
{
    if out.len() < 4 * schedule.count {
        return replies::refused(0, TOO_SHORT);
    }
    let mut live = Liveness {
        entries: [0u16; 1792],
        counts: [0u16; 1792],
    };
    live.fill(schedule);
    let written = liveness::put_live(out, &live.entries, &live.counts, schedule.count);
    replies::told(written as u32)
}

// ---- on its text: a `match` of two arms each, since with `?` each would want a function more
// Whether a value may be dropped after a line.
#[tactic(auto, using(crate::proofs::Laws::text_returns))]
pub fn may_drop(schedule: &[u8], value: u32, line: u32) -> Reply
    ensures { result ≡ reply_of (may_drop_outcome schedule.now value line) }
{
    let mut records = [tables::FREE; 1792];
    match reader::lend_schedule(schedule, &mut records) {
        Err(refusal) => replies::refused(1, refusal),
        Ok(table) => drop_answer(&table, value, line),
    }
}

// How many ciphertexts are live after a line.
#[tactic(auto, using(crate::proofs::Laws::text_returns))]
pub fn live_after(schedule: &[u8], line: u32) -> Reply
    ensures { result ≡ reply_of (live_after_outcome schedule.now line) }
{
    let mut records = [tables::FREE; 1792];
    match reader::lend_schedule(schedule, &mut records) {
        Err(refusal) => replies::refused(1, refusal),
        Ok(table) => count_after(&table, line),
    }
}

// How many are live at most.
#[tactic(auto, using(crate::proofs::Laws::text_returns))]
pub fn live_peak(schedule: &[u8]) -> Reply
    ensures { result ≡ reply_of (live_peak_outcome schedule.now) }
{
    let mut records = [tables::FREE; 1792];
    match reader::lend_schedule(schedule, &mut records) {
        Err(refusal) => replies::refused(1, refusal),
        Ok(table) => largest_count(&table),
    }
}

// The entry of each value and the count after its line.
#[tactic(auto, using(crate::proofs::Laws::text_returns))]
pub fn live(schedule: &[u8], out: &mut [u8]) -> Reply
    ensures { Replied (live_outcome schedule.now) out.old result out.new }
{
    let mut records = [tables::FREE; 1792];
    match reader::lend_schedule(schedule, &mut records) {
        Err(refusal) => replies::refused(1, refusal),
        Ok(table) => lend_live(out, &table),
    }
}
