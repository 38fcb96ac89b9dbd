// The lines of one circuit line in the schedule: those of its operands, then the line itself.
#![tactic(auto)]

ghost use Rattle.std.specs.Prelude.{◌≡◌, ◌+◌};
ghost use Rattle.tables.specs.Records.{lines_held};
ghost use Rattle.conversions.specs.Drafts.{Room, Wrote};
ghost use Rattle.conversions.specs.Operands.{Reaches};
ghost use Rattle.planlines.specs.Lines.{with_one, with_two, line_on, DoneAs};

use conversions::{Drafted, Operand};
use model::{Choice, Header, Line};
use operands::OperandsOf;
use tables::Record;

// ---- a line with one operand, and with two
#[tactic(auto, using(crate::proofs::LineLaws::each_line_laws))]
fn plan_one(
    header: Header,
    schedule: &mut [Record],
    count: usize,
    line: Line,
    choice: Choice,
    first: Operand,
) -> Drafted
    requires room { Room schedule.old count 4 }
    requires reaches { Reaches header first choice.first choice.level }
    ensures { Wrote (with_one header choice line first (lines_held schedule.old count)) (count + 4) result schedule.new }
{
    let one = conversions::put_operand(header, schedule, count, first, choice.first, choice.level);
    let named = operands::with_operands(line, one.number, 0);
    conversions::put(schedule, one.count, named)
}

#[tactic(auto, using(crate::proofs::LineLaws::each_line_laws))]
fn plan_two(
    header: Header,
    schedule: &mut [Record],
    count: usize,
    line: Line,
    choice: Choice,
    first: Operand,
    second: Operand,
) -> Drafted
    requires room { Room schedule.old count 7 }
    requires reaches { Reaches header first choice.first choice.level }
    requires reaches_2 { Reaches header second choice.second choice.level }
    ensures { Wrote (with_two header choice line first second (lines_held schedule.old count)) (count + 7) result schedule.new }
{
    let one = conversions::put_operand(header, schedule, count, first, choice.first, choice.level);
    let two = conversions::put_operand(
        header,
        schedule,
        one.count,
        second,
        choice.second,
        choice.level,
    );
    let named = operands::with_operands(line, one.number, two.number);
    conversions::put(schedule, two.count, named)
}

// ---- any line of a circuit, done as chosen
#[tactic(auto, using(crate::proofs::WordLaws::operand_laws))]
pub fn plan_line(
    header: Header,
    schedule: &mut [Record],
    count: usize,
    line: Line,
    choice: Choice,
    first: Operand,
    second: Operand,
) -> Drafted
    requires room { Room schedule.old count 7 }
    requires done_as { DoneAs header line first second choice }
    ensures { Wrote (line_on header choice line first second (lines_held schedule.old count)) (count + 7) result schedule.new }
{
    match operands::operands_of(line) {
        OperandsOf::None => conversions::put(schedule, count, line),
        OperandsOf::One(_) => plan_one(header, schedule, count, line, choice, first),
        OperandsOf::Two(_, _) => plan_two(header, schedule, count, line, choice, first, second),
    }
}
