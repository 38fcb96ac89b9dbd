// The best reserve of a circuit line, by those of the lines before it. It stands beside `linechoices`, since a walk that shares that is slower
// (docs/DECISIONS.md, 63).
#![tactic(auto)]

ghost use Rattle.std.specs.Prelude.{◌≡◌, ◌+◌, T, take, IfErr};
ghost use Rattle.model.specs.declared.Fault.TheVariants.{TooFewLevels};
ghost use Rattle.model.specs.Scales.{header_in_range};
ghost use Rattle.tables.specs.Bests.{reserves_run};
ghost use Rattle.tables.specs.Records.{lines_held};
ghost use Rattle.choices.specs.Ranges.{HeaderRanges};
ghost use Rattle.reserves.specs.Pairs.{KnownOperand, sum_reserve, product_reserve};
ghost use Rattle.reserves.specs.Walks.{step_of, unless_too_low, one_more, KnownTo};

use model::{Fault, Header, Line};
use tables::Record;

// A line whose best reserve is below the headroom has too few levels.
#[tactic(auto, using(crate::proofs::PairLaws::pairs))]
fn unless_too_low(header: Header, reserve: i32) -> Result<i32, Fault>
    requires { T (header_in_range header) }
    ensures reserve { step_of result ≡ unless_too_low header reserve }
    ensures fault { IfErr result (λ f. f ≡ TooFewLevels) }
{
    if reserve < scales::headroom(header) {
        return Err(Fault::TooFewLevels);
    }
    Ok(reserve)
}

// ---- one line
#[tactic(auto, using(crate::proofs::PairLaws::pairs))]
fn sum_reserve(circuit: &[Record], reserves: &[i32], a: u16, b: u16) -> i32
    requires known_operand { KnownOperand circuit.now reserves.now a }
    requires known_operand_2 { KnownOperand circuit.now reserves.now b }
    ensures { result ≡ sum_reserve circuit.now reserves.now a b }
{
    let first = a as usize;
    let second = b as usize;
    if tables::is_constant(circuit, first) {
        return reserves[second];
    }
    if tables::is_constant(circuit, second) {
        return reserves[first];
    }
    choices::smaller_of(reserves[first], reserves[second])
}

#[tactic(auto, using(crate::proofs::PairLaws::pairs))]
fn product_reserve(header: Header, circuit: &[Record], reserves: &[i32], a: u16, b: u16) -> i32
    requires header_ranges { HeaderRanges header }
    requires known_operand { KnownOperand circuit.now reserves.now a }
    requires known_operand_2 { KnownOperand circuit.now reserves.now b }
    ensures { result ≡ product_reserve header circuit.now reserves.now a b }
{
    let first = a as usize;
    let second = b as usize;
    if tables::is_constant(circuit, first) {
        return choices::less_waterline(header, reserves[second]);
    }
    if tables::is_constant(circuit, second) {
        return choices::less_waterline(header, reserves[first]);
    }
    let choice = choices::product_choice(header, reserves[first], reserves[second]);
    choice.reserve
}

// The best reserve that line i leaves, 0 for a bare constant, where those of the lines before it are known.
pub fn reserve_of(
    header: Header,
    circuit: &[Record],
    reserves: &[i32],
    i: usize,
) -> Result<i32, Fault>
    requires { KnownTo header circuit.now reserves.now i }
    ensures reserve { reserves_run header (lines_held circuit.now (i + 1)) ≡ one_more i (take i reserves.now) (step_of result) }
    ensures fault { IfErr result (λ f. f ≡ TooFewLevels) }
{
    match tables::line_at(circuit, i) {
        Line::In => unless_too_low(header, choices::at_waterline(header, header.top)),
        Line::Const(_) => Ok(0),
        Line::Neg(a) => {
            let first = a as usize;
            unless_too_low(header, reserves[first])
        }
        Line::Rot(a, _) => {
            let first = a as usize;
            unless_too_low(header, reserves[first])
        }
        Line::Add(a, b) => unless_too_low(header, sum_reserve(circuit, reserves, a, b)),
        Line::Mul(a, b) => {
            unless_too_low(header, product_reserve(header, circuit, reserves, a, b))
        }
        Line::Out(a) => {
            let first = a as usize;
            Ok(reserves[first])
        }
        // No circuit has these words.
        Line::Enc { .. } => Err(Fault::TooFewLevels),
        Line::Rs(_, _) => Err(Fault::TooFewLevels),
        Line::Ms(_, _) => Err(Fault::TooFewLevels),
        Line::Us(_, _) => Err(Fault::TooFewLevels),
        Line::Free => Err(Fault::TooFewLevels),
    }
}
