// Check and erase, from the bytes of files to the reply. The text layer is used by its contracts alone.
#![tactic(auto)]

ghost use Rattle.std.specs.Prelude.{◌≡◌};
ghost use Rattle.text.specs.Tables.{file_of};
ghost use Rattle.model.specs.Answers.{check};
ghost use Rattle.model.specs.Refusals.{verdict_answer};
ghost use Rattle.tables.specs.Files.{circuit_held, schedule_held};
ghost use Rattle.replies.specs.Told.{reply_to};
ghost use Rattle.services.specs.Outcomes.{reply_of, Replied};
ghost use Rattle.services.specs.Calls.{check_outcome, erase_outcome};

use model::Refusal;
use replies::FileRefusal;
use services::Reply;
use tables::files::{CircuitTable, ScheduleTable};

// The verdict on files that were read: 12 where the schedule erases to another circuit, and only then the rules.
#[tactic(auto, using(crate::proofs::Laws::step_needs, crate::proofs::Laws::step_returns))]
fn verdict(circuit: &CircuitTable, schedule: &ScheduleTable) -> Result<(), Refusal>
    ensures { verdict_answer result ≡ check (file_of (circuit_held circuit.now)) (file_of (schedule_held schedule.now)) }
{
    erasing::compare_erasure(circuit, schedule)?;
    let mut scales = [0u16; 1792];
    rules::rules_answer(&rules::listing_of(schedule), &mut scales)
}

// The same on the bytes of both files: the circuit is read first.
#[tactic(auto, using(crate::proofs::Laws::step_returns))]
fn checked(circuit: &[u8], schedule: &[u8]) -> Result<u32, FileRefusal>
    ensures { reply_to result ≡ reply_of (check_outcome circuit.now schedule.now) }
{
    let mut records = [tables::FREE; 1792];
    let first = reader::lend_circuit(circuit, &mut records)?;
    let mut others = [tables::FREE; 1792];
    // By `match`, since `?` makes a refusal of the first file.
    match reader::lend_schedule(schedule, &mut others) {
        Err(refusal) => Err(FileRefusal { file: 2, refusal }),
        Ok(second) => match verdict(&first, &second) {
            Err(refusal) => Err(replies::at_fault(2, refusal)),
            Ok(()) => Ok(0),
        },
    }
}

// Checks a schedule against a circuit.
pub fn check(circuit: &[u8], schedule: &[u8]) -> Reply
    ensures { result ≡ reply_of (check_outcome circuit.now schedule.now) }
{
    replies::reply(checked(circuit, schedule))
}

// The circuit's text, and how many bytes it has.
#[tactic(auto, using(crate::proofs::Laws::step_needs, crate::proofs::Laws::step_returns))]
fn erased(schedule: &[u8], out: &mut [u8]) -> Result<u32, FileRefusal>
    ensures { Replied (erase_outcome schedule.now) out.old (reply_to result) out.new }
{
    let mut records = [tables::FREE; 1792];
    let table = reader::lend_erase(schedule, &mut records)?;
    let mut erasure = [tables::FREE; 1792];
    let kept = erasing::erase_table(table.records, table.count, &mut erasure);
    replies::put_text(out, b"circuit", table.header, &erasure, kept)
}

// Erases a schedule to its circuit. Nothing is written before the text is known to fit.
pub fn erase(schedule: &[u8], out: &mut [u8]) -> Reply
    ensures { Replied (erase_outcome schedule.now) out.old result out.new }
{
    replies::reply(erased(schedule, out))
}
