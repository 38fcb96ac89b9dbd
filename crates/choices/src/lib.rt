// How a ciphertext line is done, by the reserves of its operands: a function for each case of document 01's plan.
// Reserves are signed, since what is left of one may come out below zero.
#![tactic(auto)]

ghost use Rattle.std.specs.Prelude.{◌≡◌, ◌*◌, ◌≤◌, pos, ◌-ℤ◌};
ghost use Rattle.model.specs.Scales.{modulus};
ghost use Rattle.model.specs.Plan.{lowest_level, smaller, at_waterline, input_choice, unchanged_choice, times_constant_choice, constant_times_choice, unequal_choice, same_level_choice, level_below_choice, greater_else_lower, product_choice};
ghost use Rattle.choices.specs.Ranges.{HeaderRanges, Small};

use model::{Choice, Header};

// m(r) of a reserve that is not below zero.
fn lowest_level(header: Header, reserve: i32) -> u32
    requires header_ranges { HeaderRanges header }
    requires small { Small reserve }
    ensures { result ≡ lowest_level header reserve }
{
    ((reserve as u32) + header.waterline + (header.factor - 1)) / header.factor
}

// The bits of the modulus at a level. An m(r) has at most 3,600 + 60 + 59 of them.
fn modulus_at(header: Header, level: u32) -> i32
    requires { header.factor * level ≤ 3719 }
    ensures { result ≡ pos (modulus header level) }
{
    (header.factor * level) as i32
}

// The reserve at scale W.
pub fn at_waterline(header: Header, level: u32) -> i32
    requires header_ranges { HeaderRanges header }
    requires level_bound { header.factor * level ≤ 3719 }
    ensures { result ≡ at_waterline header level }
{
    modulus_at(header, level) - (header.waterline as i32)
}

// What a product with an operand at scale W leaves of the other's reserve.
pub fn less_waterline(header: Header, reserve: i32) -> i32
    requires header_ranges { HeaderRanges header }
    requires small { Small reserve }
    ensures { result ≡ reserve -ℤ pos header.waterline }
{
    reserve - (header.waterline as i32)
}

pub fn smaller_of(first: i32, second: i32) -> i32
    ensures { result ≡ smaller first second }
{
    first.min(second)
}

// ---- no ciphertext operand, and one
pub fn input_choice(header: Header) -> Choice
    requires { HeaderRanges header }
    ensures { result ≡ input_choice header }
{
    let level = header.top;
    let reserve = at_waterline(header, level);
    Choice {
        level: level,
        reserve: reserve,
        first: reserve,
        second: reserve,
    }
}

pub fn unchanged_choice(header: Header, reserve: i32) -> Choice
    requires header_ranges { HeaderRanges header }
    requires small { Small reserve }
    ensures { result ≡ unchanged_choice header reserve }
{
    Choice {
        level: lowest_level(header, reserve),
        reserve: reserve,
        first: reserve,
        second: reserve,
    }
}

// Two functions, as document 01's plan has two definitions.
pub fn times_constant_choice(header: Header, reserve: i32) -> Choice
    requires header_ranges { HeaderRanges header }
    requires small { Small reserve }
    ensures { result ≡ times_constant_choice header reserve }
{
    let level = lowest_level(header, reserve);
    Choice {
        level: level,
        reserve: less_waterline(header, reserve),
        first: reserve,
        second: at_waterline(header, level),
    }
}

pub fn constant_times_choice(header: Header, reserve: i32) -> Choice
    requires header_ranges { HeaderRanges header }
    requires small { Small reserve }
    ensures { result ≡ constant_times_choice header reserve }
{
    let level = lowest_level(header, reserve);
    Choice {
        level: level,
        reserve: less_waterline(header, reserve),
        first: at_waterline(header, level),
        second: reserve,
    }
}

// ---- the product of two ciphertexts
// With m's unequal, at the smaller m.
fn unequal_choice(header: Header, first: i32, second: i32, level: u32) -> Choice
    requires header_ranges { HeaderRanges header }
    requires small { Small first }
    requires small_2 { Small second }
    requires level_bound { header.factor * level ≤ 3719 }
    ensures { result ≡ unequal_choice header first second level }
{
    let other = at_waterline(header, level);
    if first <= second {
        return Choice {
            level: level,
            reserve: less_waterline(header, first),
            first: first,
            second: other,
        };
    }
    Choice {
        level: level,
        reserve: less_waterline(header, second),
        first: other,
        second: second,
    }
}

// With m's equal, at that level.
fn same_level_choice(header: Header, first: i32, second: i32, level: u32) -> Choice
    requires small { Small first }
    requires small_2 { Small second }
    requires level_bound { header.factor * level ≤ 3719 }
    ensures { result ≡ same_level_choice header first second level }
{
    Choice {
        level: level,
        reserve: first + second - modulus_at(header, level),
        first: first,
        second: second,
    }
}

// With m's equal, at the level below, both operands at scale W.
fn level_below_choice(header: Header, level: u32) -> Choice
    requires header_ranges { HeaderRanges header }
    requires le_level { 1 ≤ level }
    requires level_bound { header.factor * level ≤ 3719 }
    ensures { result ≡ level_below_choice header level }
{
    let below = level - 1;
    let operand = at_waterline(header, below);
    Choice {
        level: below,
        reserve: modulus_at(header, below) - ((2 * header.waterline) as i32),
        first: operand,
        second: operand,
    }
}

// The greater reserve; if equal, the lower level.
fn greater_of(below: Choice, same: Choice) -> Choice
    ensures { result ≡ greater_else_lower below same }
{
    if below.reserve < same.reserve {
        same
    } else {
        below
    }
}

#[tactic(auto, using(crate::proofs::ChoiceLaws::choices))]
pub fn product_choice(header: Header, first: i32, second: i32) -> Choice
    requires header_ranges { HeaderRanges header }
    requires small { Small first }
    requires small_2 { Small second }
    ensures { result ≡ product_choice header first second }
{
    let m = lowest_level(header, first);
    let n = lowest_level(header, second);
    if m == n {
        return greater_of(
            level_below_choice(header, m),
            same_level_choice(header, first, second, m),
        );
    }
    if m < n {
        return unequal_choice(header, first, second, m);
    }
    unequal_choice(header, first, second, n)
}
