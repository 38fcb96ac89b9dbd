// The types that document 01's definitions and the code share. What they mean stands in specs/.
#![tactic(auto)]

ghost use Rattle.std.specs.Prelude.{◌≡◌};
ghost use Rattle.model.specs.Refusals.{number_of};

// Why a file is refused, in the order of document 01's numbers.
#[derive(Clone, Copy, PartialEq, Eq)]
pub enum Fault {
    NotOfForm,
    HeaderOutOfRange,
    TooManyLines,
    NoUsableLine,
    WrongKind,
    TooFewLevels,
    LevelsDiffer,
    ScalesDiffer,
    AboveModulus,
    BelowWaterline,
    NumberOutOfRange,
    AnotherCircuit,
    BufferTooShort,
    TooHighForDownscale,
}

impl Fault {
    // Its number for a host.
    pub fn number(self) -> u32
        ensures { result ≡ number_of self }
    {
        match self {
            Fault::NotOfForm => 1,
            Fault::HeaderOutOfRange => 2,
            Fault::TooManyLines => 3,
            Fault::NoUsableLine => 4,
            Fault::WrongKind => 5,
            Fault::TooFewLevels => 6,
            Fault::LevelsDiffer => 7,
            Fault::ScalesDiffer => 8,
            Fault::AboveModulus => 9,
            Fault::BelowWaterline => 10,
            Fault::NumberOutOfRange => 11,
            Fault::AnotherCircuit => 12,
            Fault::BufferTooShort => 13,
            Fault::TooHighForDownscale => 14,
        }
    }
}

// A refusal: why, and the text line that caused it, 0 where no line did.
#[derive(Clone, Copy, PartialEq, Eq)]
pub struct Refusal {
    pub fault: Fault,
    pub place: u32,
}

// "F is the rescale factor, W the waterline, L the top level", and H: one value, so that "however F, W and L reach each line now, it travels with them".
#[derive(Clone, Copy, PartialEq, Eq)]
pub struct Header {
    pub factor: u32,
    pub waterline: u32,
    pub top: u32,
    // The fourth number, "bits of size with the sign", where it is given.
    pub headroom: Option<u32>,
}

// No word, and the words of document 01's lines. No word is a case, since `Words.entry` is over it.
#[derive(Clone, Copy, PartialEq, Eq)]
pub enum Word {
    NoWord,
    In,
    Const,
    Neg,
    Rot,
    Add,
    Mul,
    Out,
    Enc,
    Rs,
    Ms,
    Us,
}

// A line by its word; operands are value numbers. Of a line that is read a constant number has at most 32 bits and no other number more than 16;
// definitions have whole numbers of any size in their place. Free is no line: a record that holds none, a case since `Tables.RestFree` is over it.
#[derive(Clone, Copy, PartialEq, Eq)]
pub enum Line {
    In,
    Const(u32),
    Neg(u16),
    Rot(u16, i16),
    Add(u16, u16),
    Mul(u16, u16),
    Out(u16),
    Enc { of: u16, scale: u16, level: u16 },
    Rs(u16, u16),
    Ms(u16, u16),
    Us(u16, u16),
    Free,
}

// The two files of document 01.
#[derive(Clone, Copy, PartialEq, Eq)]
pub enum Grammar {
    Circuit,
    Schedule,
}

// What a value can be used as. An `out` line and a free record are Nothing, a case since `Files.kind_at` gives it.
#[derive(Clone, Copy, PartialEq, Eq)]
pub enum Kind {
    Ciphertext,
    Constant,
    Encoded,
    Nothing,
}

// How a ciphertext line is done: the level, the reserves to which its operands come at that level, and the reserve that it then has.
// The reserves of the operands mean nothing for `in`, which has no operand, and for `out`, which takes its own as it is.
#[derive(Clone, Copy)]
pub struct Choice {
    pub level: u32,
    pub first: i32,
    pub second: i32,
    pub reserve: i32,
}

// What the plan knows of a circuit line: a bare constant, or a ciphertext and how it is done. No Option: the definitions of the plan have these two words.
#[derive(Clone, Copy)]
pub enum Best {
    Constant,
    Ciphertext(Choice),
}

// What the check finds of a line: a bare constant, or a scale and a level.
#[derive(Clone, Copy)]
pub enum Found {
    Bare,
    Encoded(u32, u32),
    Ciphertext(u32, u32),
}

// A service's answer on tables that were read: done, a least top level, or a refusal.
#[derive(Clone, Copy)]
pub enum Answer {
    Done,
    Level(u32),
    Refused { number: u32, place: u32 },
}
