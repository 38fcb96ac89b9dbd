// The services for a host in C, each with what the demands ask of it. include/gowashiru.h has the declarations.
#![tactic(auto)]

ghost use Rattle.services.specs.Promises.{PlanPromise, CheckPromise, ErasePromise, LeastPromise};
ghost use Rattle.services.specs.Listings.{FromRisingPromise};
ghost use Rattle.risingwriter.specs.GoingOut.{ToRisingPromise};
ghost use Rattle.quotes.specs.Quotes.{QuotePromise};
ghost use Rattle.dropping.specs.Dropping.{MayDropPromise, LiveAfterPromise, LivePeakPromise, LivePromise};

use quotes::QuoteReply;
use services::Reply;

// Plans a circuit.
#[unsafe(no_mangle)]
pub extern "C" fn gowashiru_plan(circuit: &[u8], out: &mut [u8]) -> Reply
    ensures { PlanPromise circuit.now out.old result out.new }
{
    planner::plan(circuit, out)
}

// Checks a schedule against a circuit.
#[unsafe(no_mangle)]
pub extern "C" fn gowashiru_check(circuit: &[u8], schedule: &[u8]) -> Reply
    ensures { CheckPromise circuit.now schedule.now result }
{
    checker::check(circuit, schedule)
}

// Erases a schedule to its circuit.
#[unsafe(no_mangle)]
pub extern "C" fn gowashiru_erase(schedule: &[u8], out: &mut [u8]) -> Reply
    ensures { ErasePromise schedule.now out.old result out.new }
{
    checker::erase(schedule, out)
}

// The least top level.
#[unsafe(no_mangle)]
pub extern "C" fn gowashiru_least_level(circuit: &[u8]) -> Reply
    ensures { LeastPromise circuit.now result }
{
    planner::least_level(circuit)
}

// Makes a schedule of a listing in the rising-level dialect.
#[unsafe(no_mangle)]
pub extern "C" fn gowashiru_from_rising(listing: &[u8], out: &mut [u8]) -> Reply
    ensures { FromRisingPromise listing.now out.old result out.new }
{
    converter::from_rising(listing, out)
}

// Makes a listing in the rising-level dialect of a schedule.
#[unsafe(no_mangle)]
pub extern "C" fn gowashiru_to_rising(schedule: &[u8], out: &mut [u8]) -> Reply
    ensures { ToRisingPromise schedule.now out.old result out.new }
{
    risingwriter::to_rising(schedule, out)
}

// Quotes the plan of a circuit: its lines, bytes and price.
#[unsafe(no_mangle)]
pub extern "C" fn gowashiru_quote(circuit: &[u8]) -> QuoteReply
    ensures { QuotePromise circuit.now result }
{
    quotes::quote(circuit)
}

// Whether a value of a schedule may be dropped after a line.
#[unsafe(no_mangle)]
pub extern "C" fn gowashiru_may_drop(schedule: &[u8], value: u32, line: u32) -> Reply
    ensures { MayDropPromise schedule.now value line result }
{
    dropping::may_drop(schedule, value, line)
}

// How many ciphertexts of a schedule are live after a line.
#[unsafe(no_mangle)]
pub extern "C" fn gowashiru_live_after(schedule: &[u8], line: u32) -> Reply
    ensures { LiveAfterPromise schedule.now line result }
{
    dropping::live_after(schedule, line)
}

// How many ciphertexts of a schedule are live at most.
#[unsafe(no_mangle)]
pub extern "C" fn gowashiru_live_peak(schedule: &[u8]) -> Reply
    ensures { LivePeakPromise schedule.now result }
{
    dropping::live_peak(schedule)
}

// The last line that names each value of a schedule, and how many ciphertexts are live after its own line.
#[unsafe(no_mangle)]
pub extern "C" fn gowashiru_live(schedule: &[u8], out: &mut [u8]) -> Reply
    ensures { LivePromise schedule.now out.old result out.new }
{
    dropping::live(schedule, out)
}
