// Lines written into a schedule: one line, the conversion lines of a ciphertext, and an operand at a reserve and a level.
#![tactic(auto)]

ghost use Rattle.std.specs.Prelude.{◌≡◌, ◌+◌, ◌≤◌, pos, ◌≤ℤ◌};
ghost use Rattle.ints.specs.Parts.{positive};
ghost use Rattle.model.specs.Plan.{emit, switches, convert};
ghost use Rattle.tables.specs.Records.{lines_held};
ghost use Rattle.conversions.specs.Drafts.{draft_of, line_unless_zero, Room, Wrote};
ghost use Rattle.conversions.specs.Operands.{supplied, Reaches};

use model::{Header, Line};
use tables::Record;

// How many lines the schedule has, and the number of the value to name next.
#[derive(Clone, Copy)]
pub struct Drafted {
    pub count: usize,
    pub number: u16,
}

// What is known of an operand: its reserve and level where it is a ciphertext, and its number in the schedule.
// The flag and the values stay beside each other: with the number and a `Best` in one array a plan took 1.31 of the time over all rows of the
// bench, 1.13 above 3 µs.
#[derive(Clone, Copy)]
pub struct Operand {
    pub ciphertext: bool,
    pub reserve: i32,
    pub level: u32,
    pub number: u16,
}

// One line more; its value is named.
pub fn put(schedule: &mut [Record], count: usize, line: Line) -> Drafted
    requires { Room schedule.old count 1 }
    ensures { Wrote (emit (lines_held schedule.old count) line) (count + 1) result schedule.new }
{
    schedule[count] = tables::record_of(line);
    Drafted {
        count: count + 1,
        number: count as u16,
    }
}

// ---- the conversion lines of a ciphertext
// A line, only if what it takes is not zero.
#[tactic(auto, using(crate::proofs::PutLaws::put_laws))]
fn put_unless_zero(schedule: &mut [Record], draft: Drafted, amount: u32, line: Line) -> Drafted
    requires { Room schedule.old draft.count 1 }
    ensures { Wrote (line_unless_zero amount line (draft_of schedule.old draft)) (draft.count + 1) result schedule.new }
{
    if amount == 0 {
        return draft;
    }
    put(schedule, draft.count, line)
}

// What takes `distance` bits of reserve and so many levels.
#[tactic(auto, using(crate::proofs::PutLaws::put_laws))]
fn put_conversion(
    header: Header,
    schedule: &mut [Record],
    draft: Drafted,
    distance: u32,
    levels: u32,
) -> Drafted
    requires room { Room schedule.old draft.count 3 }
    requires le_factor { 1 ≤ header.factor }
    requires distance_bound { distance ≤ 3600 }
    requires levels_bound { levels ≤ 60 }
    ensures { Wrote (convert header distance levels (switches header distance levels) (draft_of schedule.old draft))
        (draft.count + 3) result schedule.new }
{
    let modswitches = (distance / header.factor).min(levels);
    let switch = Line::Ms(draft.number, modswitches as u16);
    let switched = put_unless_zero(schedule, draft, modswitches, switch);
    let bits = distance - modswitches * header.factor;
    let upscale = Line::Us(switched.number, bits as u16);
    let upscaled = put_unless_zero(schedule, switched, bits, upscale);
    let rescales = levels - modswitches;
    let rescale = Line::Rs(upscaled.number, rescales as u16);
    put_unless_zero(schedule, upscaled, rescales, rescale)
}

// ---- an operand
// A reserve that is not below zero, as a number of bits.
#[tactic(auto, using(crate::proofs::PutLaws::put_laws))]
fn bits_of(reserve: i32) -> u32
    requires { pos 0 ≤ℤ reserve }
    ensures { result ≡ positive reserve }
{
    reserve as u32
}

// An operand, brought to a reserve at a level.
#[tactic(auto, using(crate::proofs::PutLaws::put_laws))]
pub fn put_operand(
    header: Header,
    schedule: &mut [Record],
    count: usize,
    operand: Operand,
    reserve: i32,
    level: u32,
) -> Drafted
    requires room { Room schedule.old count 3 }
    requires reaches { Reaches header operand reserve level }
    ensures { Wrote (supplied header operand reserve level (lines_held schedule.old count)) (count + 3) result schedule.new }
{
    let kept = bits_of(reserve);
    if !operand.ciphertext {
        let scale = header.factor * level - kept;
        return put(
            schedule,
            count,
            Line::Enc {
                of: operand.number,
                scale: scale as u16,
                level: level as u16,
            },
        );
    }
    let draft = Drafted {
        count: count,
        number: operand.number,
    };
    let distance = bits_of(operand.reserve) - kept;
    put_conversion(header, schedule, draft, distance, operand.level - level)
}
