// The bounds of a scale and a level: W ≤ scale, and scale and headroom ≤ F·level. Both may be below zero here, as after a rescale past zero.
#![tactic(auto)]

ghost use Rattle.std.specs.Prelude.{◌≡◌, ◌≤◌, T, pos, ◌+ℤ◌, ◌-ℤ◌, ◌*ℤ◌, IfOk};
ghost use Rattle.std.specs.Int.Signed.{le_z};
ghost use Rattle.model.specs.Scales.{header_in_range, headroom};
ghost use Rattle.bounds.specs.Bounded.{stepped, bounded_numbers, InReach, Small};

use model::{Fault, Header};

// The scale and the level that a line holds; a bare constant has neither, and both are 0.
#[derive(Clone, Copy)]
pub struct Held {
    pub scale: u16,
    pub level: u16,
}

// A number as a signed one.
fn signed(n: u32) -> i32
    requires { n ≤ 7200 }
    ensures { result ≡ pos n }
{
    n as i32
}

// What is left of a number, below zero where too much is taken.
pub fn difference(n: u32, taken: u32) -> i32
    requires n_bound { n ≤ 7200 }
    requires taken_bound { taken ≤ 7200 }
    ensures { result ≡ pos n -ℤ pos taken }
{
    signed(n) - signed(taken)
}

fn reaches_waterline(header: Header, scale: i32) -> bool
    requires { T (header_in_range header) }
    ensures { result ≡ le_z (pos header.waterline) scale }
{
    signed(header.waterline) <= scale
}

#[tactic(auto, using(crate::proofs::BoundLaws::modulus_test))]
fn fits_modulus(header: Header, scale: i32, level: i32) -> bool
    requires t { T (header_in_range header) }
    requires in_reach { InReach scale level }
    ensures { result ≡ le_z (scale +ℤ pos (headroom header)) (pos header.factor *ℤ level) }
{
    scale + scales::headroom(header) <= signed(header.factor) * level
}

// 10, then 9, or the scale and the level.
pub fn bounded(header: Header, scale: i32, level: i32) -> Result<Held, Fault>
    requires t { T (header_in_range header) }
    requires in_reach { InReach scale level }
    ensures value { stepped result ≡ bounded_numbers header scale level }
    ensures small { IfOk result Small }
{
    if !reaches_waterline(header, scale) {
        return Err(Fault::BelowWaterline);
    }
    if !fits_modulus(header, scale, level) {
        return Err(Fault::AboveModulus);
    }
    Ok(Held {
        scale: scale as u16,
        level: level as u16,
    })
}

// A scale and a level that are not below zero: one line over the other function.
pub fn bounded_natural(header: Header, scale: u32, level: u32) -> Result<Held, Fault>
    requires t { T (header_in_range header) }
    requires scale_bound { scale ≤ 7200 }
    requires level_bound { level ≤ 60 }
    ensures value { stepped result ≡ bounded_numbers header (pos scale) (pos level) }
    ensures small { IfOk result Small }
{
    bounded(header, signed(scale), signed(level))
}
