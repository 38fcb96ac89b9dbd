// Plan and least level, from the bytes of a circuit to the reply. The text layer is used by its contracts alone.
#![tactic(auto)]

ghost use Rattle.std.specs.Prelude.{◌≡◌};
ghost use Rattle.replies.specs.Told.{reply_to};
ghost use Rattle.services.specs.Outcomes.{reply_of, Replied};
ghost use Rattle.services.specs.Calls.{plan_outcome, least_outcome};

use replies::FileRefusal;
use services::Reply;

// The plan's text, and how many bytes it has. The whole file is read before any line is found to have too few levels, and nothing is written before
// the text is known to fit.
#[tactic(auto, using(crate::proofs::Laws::step_returns))]
fn planned(circuit: &[u8], out: &mut [u8]) -> Result<u32, FileRefusal>
    ensures { Replied (plan_outcome circuit.now) out.old (reply_to result) out.new }
{
    let mut records = [tables::FREE; 1792];
    let table = reader::lend_circuit(circuit, &mut records)?;
    let mut schedule = [tables::FREE; 1792];
    let length = plantable::plan_table(&table, &mut schedule)?;
    replies::put_text(out, b"schedule", table.header, &schedule, length)
}

// Plans a circuit.
pub fn plan(circuit: &[u8], out: &mut [u8]) -> Reply
    ensures { Replied (plan_outcome circuit.now) out.old result out.new }
{
    replies::reply(planned(circuit, out))
}

// The least top level. The header's own level is only tested for its range.
#[tactic(auto, using(crate::proofs::Laws::step_returns))]
fn least(circuit: &[u8]) -> Result<u32, FileRefusal>
    ensures { reply_to result ≡ reply_of (least_outcome circuit.now) }
{
    let mut records = [tables::FREE; 1792];
    let table = reader::lend_circuit(circuit, &mut records)?;
    let level = levels::least_level(&table)?;
    Ok(level)
}

// Seeks the least top level of a circuit.
pub fn least_level(circuit: &[u8]) -> Reply
    ensures { result ≡ reply_of (least_outcome circuit.now) }
{
    replies::reply(least(circuit))
}
