// The plan of a circuit, in one walk over its lines: each is done by what is known of the lines before it, and written at once.
#![tactic(auto)]

ghost use Rattle.std.specs.Prelude.{◌≡◌, ◌≤◌, ◌<◌, length, IfOk, IfErr};
ghost use Rattle.model.specs.declared.Fault.TheVariants.{TooFewLevels};
ghost use Rattle.model.specs.Services.{plan};
ghost use Rattle.text.specs.Tables.{file_of};
ghost use Rattle.tables.specs.Files.{circuit_held};
ghost use Rattle.tables.specs.Records.{lines_held, free_records};
ghost use Rattle.conversions.specs.Operands.{operand_in};
ghost use Rattle.plantable.specs.Plans.{planned_of};

use conversions::Operand;
use model::Refusal;
use tables::Record;
use tables::files::CircuitTable;

// What is known of a value that a line after `count` circuit lines names.
#[tactic(auto, using(crate::proofs::Planning::operand_laws))]
fn operand_at(
    circuit: &[Record],
    count: usize,
    reserves: &[i32],
    levels: &[u16],
    numbers: &[u16],
    value: u16,
) -> Operand
    requires count_in_bounds { count ≤ length circuit.now }
    requires value_in_bounds { value < length reserves.now }
    requires value_in_bounds_2 { value < length levels.now }
    requires value_in_bounds_3 { value < length numbers.now }
    ensures { result ≡ operand_in (lines_held circuit.now count) reserves.now levels.now numbers.now value }
{
    let kind = tables::kind_at(circuit, count, value as u64);
    let a = value as usize;
    Operand {
        ciphertext: tables::is_ciphertext(kind),
        reserve: reserves[a],
        level: levels[a] as u32,
        number: numbers[a],
    }
}

// The plan of a circuit, into records that are free: of how many lines it is, or the refusal of the line that has too few levels. Beside it
// stand the best reserves of the circuit's lines, their levels, and their numbers in the schedule.
#[tactic(auto, using(crate::proofs::Planning::plan_laws))]
pub fn plan_table(circuit: &CircuitTable, schedule: &mut [Record]) -> Result<usize, Refusal>
    requires { schedule.old ≡ free_records }
    ensures planned { planned_of circuit.now.header schedule.new result ≡ plan (file_of (circuit_held circuit.now)) }
    ensures few { IfOk result (λ count. count ≤ 1792) }
    ensures fault { IfErr result (λ r. r.fault ≡ TooFewLevels) }
    ensures placed { IfErr result (λ r. 2 ≤ r.place × r.place ≤ 1794) }
{
    let header = circuit.header;
    let mut reserves = [0i32; 256];
    let mut levels = [0u16; 256];
    let mut numbers = [0u16; 256];
    let mut count: usize = 0;
    for i in 0..circuit.count {
        let line = tables::line_at(circuit.records, i);
        let a = operands::first_operand(line);
        let b = operands::second_operand(line);
        let first = operand_at(circuit.records, i, &reserves, &levels, &numbers, a);
        let second = operand_at(circuit.records, i, &reserves, &levels, &numbers, b);
        let choice = match linechoices::choice_of(header, line, first, second) {
            Ok(choice) => choice,
            Err(fault) => {
                return Err(Refusal {
                    fault,
                    place: (i as u32) + 2,
                });
            }
        };
        let drafted = planlines::plan_line(header, schedule, count, line, choice, first, second);
        let reserve = choice.reserve;
        reserves[i] = reserve;
        levels[i] = choice.level as u16;
        numbers[i] = drafted.number;
        count = drafted.count;
    }
    Ok(count)
}
