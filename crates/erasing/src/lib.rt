// Erases the table of a schedule to that of its circuit, and compares a circuit with what a schedule erases to.
#![tactic(auto)]

ghost use Rattle.std.specs.Prelude.{IfErr, ◌≡◌, ◌≤◌, ◌<◌, get_or, drop};
ghost use Rattle.rows.specs.Rows.{place_of};
ghost use Rattle.model.specs.declared.Fault.TheVariants.{AnotherCircuit};
ghost use Rattle.model.specs.declared.Line.TheVariants.{Free};
ghost use Rattle.model.specs.Services.{erase};
ghost use Rattle.model.specs.Answers.{same_header, rules_answer, check};
ghost use Rattle.text.specs.Tables.{file_of};
ghost use Rattle.tables.specs.Files.{circuit_lines, circuit_held, schedule_lines, schedule_held};
ghost use Rattle.tables.specs.Records.{line_of, lines_of, lines_held, free_records, IsSchedule};
ghost use Rattle.erasing.specs.Comparing.{after_compared, begin_with};
ghost use Rattle.erasing.specs.Lines.{erased_to, erased_by};

use model::{Fault, Header, Refusal};
use tables::Record;
use tables::files::{CircuitTable, ScheduleTable};

// What erasing makes of a line: it is kept, its operands counted anew; or it is struck and was made from this kept line.
#[derive(Clone, Copy)]
enum Erased {
    Kept(Record),
    Struck(u16),
}

// Line i of a schedule; the origins are the kept lines that the lines before it are or were made from.
fn erase_line(origins: &[u16; 1792], schedule: &[Record], count: usize, i: usize) -> Erased
    requires schedule { IsSchedule schedule.now count }
    requires inside { i < count }
    ensures { erased_to result ≡ erased_by origins.now (get_or (lines_of schedule.now) i Free) }
{
    let record = schedule[i];
    let a = operands::first_of(record);
    let b = operands::second_of(record);
    let first = origins[a as usize];
    let second = origins[b as usize];
    if tables::struck_at(schedule, i) {
        return Erased::Struck(first);
    }
    Erased::Kept(operands::renamed(record, first, second))
}

// The lines that erasing keeps, renumbered, into records that are free, and how many they are. No struct of the table: which header it has is not asked.
#[tactic(auto, using(crate::proofs::Filling::filling_laws, crate::proofs::Filling::after_struck))]
pub fn erase_table(schedule: &[Record], count: usize, erasure: &mut [Record]) -> usize
    requires schedule { IsSchedule schedule.now count }
    requires erasure_value { erasure.old ≡ free_records }
    ensures result_after { lines_held erasure.new result ≡ erase (lines_held schedule.now count) }
    ensures few { result ≤ count }
{
    let mut origins = [0u16; 1792];
    let mut at: usize = 0;
    for i in 0..count {
        match erase_line(&origins, schedule, count, i) {
            Erased::Struck(origin) => {
                origins[i] = origin;
            }
            Erased::Kept(kept) => {
                erasure[at] = kept;
                origins[i] = at as u16;
                at += 1;
            }
        }
    }
    at
}

// ---- comparing
// Whether two headers are the same.
fn same_header(one: Header, other: Header) -> bool
    ensures { result ≡ same_header one other }
{
    one == other
}

// Whether a circuit's lines go on with this record's line at `at`.
fn goes_on_with(circuit: &CircuitTable, at: usize, next: Record) -> bool
    ensures { result ≡ begin_with (drop at (circuit_lines circuit.now)) (line_of next) }
{
    if circuit.count <= at {
        return false;
    }
    let expected = circuit.records[at];
    tables::same_record(expected, next)
}

// Line `at` differs, or is one past the shorter file.
fn differs_at(at: usize) -> Refusal
    requires { at ≤ 1792 }
    ensures { result ≡ record { fault = AnotherCircuit; place = place_of at } }
{
    Refusal {
        fault: Fault::AnotherCircuit,
        place: (at as u32) + 2,
    }
}

// A circuit against the lines that erasing keeps of a schedule, each as soon as it is renumbered.
#[tactic(auto, using(crate::proofs::Comparing::compare_laws, crate::proofs::Comparing::struck_passed, crate::proofs::Comparing::line_agrees))]
pub fn compare_erasure(circuit: &CircuitTable, schedule: &ScheduleTable) -> Result<(), Refusal>
    ensures fault { IfErr result (λ r. r.fault ≡ AnotherCircuit) }
    ensures value { after_compared result (rules_answer schedule.now.header (schedule_lines schedule.now)) ≡ check (file_of (circuit_held circuit.now)) (file_of (schedule_held schedule.now)) }
{
    if !same_header(circuit.header, schedule.header) {
        return Err(Refusal {
            fault: Fault::AnotherCircuit,
            place: 1,
        });
    }
    let mut origins = [0u16; 1792];
    let mut at: usize = 0;
    for i in 0..schedule.count {
        match erase_line(&origins, schedule.records, schedule.count, i) {
            Erased::Struck(origin) => {
                origins[i] = origin;
            }
            Erased::Kept(kept) => {
                if !goes_on_with(circuit, at, kept) {
                    return Err(differs_at(at));
                }
                origins[i] = at as u16;
                at += 1;
            }
        }
    }
    if at == circuit.count {
        return Ok(());
    }
    Err(differs_at(at))
}
