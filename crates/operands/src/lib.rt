// The values that a line names, and the line with others; the same of a record.
#![tactic(auto)]

ghost use Rattle.std.specs.Prelude.{◌≡◌};
ghost use Rattle.model.specs.Files.{operands};
ghost use Rattle.tables.specs.Records.{line_of};
ghost use Rattle.operands.specs.Operands.{operands_in, first_operand, second_operand, with_operands};

use model::{Line, Word};
use tables::Record;

// ---- a line
// The values that a line names.
#[derive(Clone, Copy)]
pub enum OperandsOf {
    None,
    One(u16),
    Two(u16, u16),
}

pub fn operands_of(line: Line) -> OperandsOf
    ensures { operands_in result ≡ operands line }
{
    match line {
        Line::In => OperandsOf::None,
        Line::Const(_) => OperandsOf::None,
        Line::Neg(a) => OperandsOf::One(a),
        Line::Rot(a, _) => OperandsOf::One(a),
        Line::Add(a, b) => OperandsOf::Two(a, b),
        Line::Mul(a, b) => OperandsOf::Two(a, b),
        Line::Out(a) => OperandsOf::One(a),
        Line::Enc { of, .. } => OperandsOf::One(of),
        Line::Rs(a, _) => OperandsOf::One(a),
        Line::Ms(a, _) => OperandsOf::One(a),
        Line::Us(a, _) => OperandsOf::One(a),
        Line::Free => OperandsOf::None,
    }
}

// The first value that a line names, 0 where it names none.
#[tactic(auto, unfolding(crate::specs::Operands::first_operand))]
pub fn first_operand(line: Line) -> u16
    ensures { result ≡ first_operand line }
{
    match operands_of(line) {
        OperandsOf::None => 0,
        OperandsOf::One(a) => a,
        OperandsOf::Two(a, _) => a,
    }
}

// The second value that a line names, 0 where it names none.
#[tactic(auto, unfolding(crate::specs::Operands::second_operand))]
pub fn second_operand(line: Line) -> u16
    ensures { result ≡ second_operand line }
{
    match operands_of(line) {
        OperandsOf::None => 0,
        OperandsOf::One(_) => 0,
        OperandsOf::Two(_, b) => b,
    }
}

// The line that names these values instead of its own.
pub fn with_operands(line: Line, first: u16, second: u16) -> Line
    ensures { result ≡ with_operands line first second }
{
    match line {
        Line::In => Line::In,
        Line::Const(k) => Line::Const(k),
        Line::Neg(_) => Line::Neg(first),
        Line::Rot(_, amount) => Line::Rot(first, amount),
        Line::Add(_, _) => Line::Add(first, second),
        Line::Mul(_, _) => Line::Mul(first, second),
        Line::Out(_) => Line::Out(first),
        Line::Enc { scale, level, .. } => Line::Enc {
            of: first,
            scale: scale,
            level: level,
        },
        Line::Rs(_, levels) => Line::Rs(first, levels),
        Line::Ms(_, levels) => Line::Ms(first, levels),
        Line::Us(_, bits) => Line::Us(first, bits),
        Line::Free => Line::Free,
    }
}

// ---- a record
// The first value that the line of a record names, 0 where it names none.
#[tactic(auto, unfolding(tables::specs::Records::line_of, crate::specs::Operands::first_operand))]
pub fn first_of(r: Record) -> u16
    ensures { result ≡ first_operand (line_of r) }
{
    match r.word {
        Word::NoWord | Word::In | Word::Const => 0,
        _ => r.first,
    }
}

// The second value that it names, 0 where it names none.
#[tactic(auto, unfolding(tables::specs::Records::line_of, crate::specs::Operands::second_operand))]
pub fn second_of(r: Record) -> u16
    ensures { result ≡ second_operand (line_of r) }
{
    match r.word {
        Word::Add | Word::Mul => r.second,
        _ => 0,
    }
}

// The record of the line that names these values instead.
#[tactic(auto, unfolding(tables::specs::Records::line_of))]
pub fn renamed(r: Record, first: u16, second: u16) -> Record
    ensures { line_of result ≡ with_operands (line_of r) first second }
{
    match r.word {
        Word::NoWord | Word::In | Word::Const => r,
        Word::Add | Word::Mul => Record { first, second, ..r },
        _ => Record { first, ..r },
    }
}
