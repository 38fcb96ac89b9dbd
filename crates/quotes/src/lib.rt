// The quote: lines, bytes and price of a circuit's plan, counted over the planned table. No text is written.
#![tactic(auto)]

ghost use Rattle.std.specs.Prelude.{◌≡◌};
ghost use Rattle.model.specs.Refusals.{number_of};
ghost use Rattle.prices.specs.Levels.{RuledTable};
ghost use Rattle.quotes.specs.Quotes.{QuotePromise};
ghost use Rattle.quotes.specs.Counts.{refusal_reply, CountsTable};

use model::{Header, Refusal};
use tables::Record;

// A refusal's number, file and place, or 0 for all three and what is quoted.
#[repr(C)]
#[derive(Clone, Copy)]
pub struct QuoteReply {
    pub number: u32,
    pub file: u32,
    pub place: u32,
    pub lines: u32,
    pub bytes: u32,
    pub price: u32,
}

// The planner's own refusal, at a line of the circuit.
fn refusal(refused: Refusal) -> QuoteReply
    ensures { result ≡ refusal_reply (number_of refused.fault) 1 refused.place }
{
    let fault = refused.fault;
    QuoteReply {
        number: fault.number(),
        file: 1,
        place: refused.place,
        lines: 0,
        bytes: 0,
        price: 0,
    }
}

// What a table's lines come to; the header's line is one more.
fn counted(header: Header, schedule: &[Record], count: usize) -> QuoteReply
    requires { RuledTable header schedule.now count }
    ensures { CountsTable header schedule.now count result }
{
    let bytes = writer::file_len(b"schedule", header, schedule, count);
    let price = prices::table_price(header, schedule, count);
    QuoteReply {
        number: 0,
        file: 0,
        place: 0,
        lines: (count as u32) + 1,
        bytes: bytes as u32,
        price: price,
    }
}

// Quotes the plan of a circuit.
#[tactic(auto, using(crate::proofs::Laws::quote_needs, crate::proofs::Laws::quote_refusals, crate::proofs::Laws::quote_counts))]
pub fn quote(circuit: &[u8]) -> QuoteReply
    ensures { QuotePromise circuit.now result }
{
    let mut records = [tables::FREE; 1792];
    match reader::lend_circuit(circuit, &mut records) {
        Err(refused) => refusal(refused),
        Ok(table) => {
            let mut schedule = [tables::FREE; 1792];
            match plantable::plan_table(&table, &mut schedule) {
                Err(too_few) => refusal(too_few),
                Ok(length) => counted(table.header, &schedule, length),
            }
        }
    }
}
