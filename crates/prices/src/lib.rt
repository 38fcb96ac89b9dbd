// The price of a schedule: over the lines that a table holds, each at its level under the rules.
#![tactic(auto)]

ghost use Rattle.std.specs.Prelude.{◌≡◌, ◌≤◌, ◌<◌, T, length, get_or};
ghost use Rattle.model.specs.declared.Grammar.TheVariants.{Schedule};
ghost use Rattle.model.specs.Files.{is_word};
ghost use Rattle.tables.specs.Records.{line_of, lines_held};
ghost use Rattle.prices.specs.Prices.{summed, per_level, down_from, IsPrice};
ghost use Rattle.prices.specs.Levels.{summed_starts, level_after, OnLevel, product_of, prices, RuledTable};

use model::{Header, Kind, Word};
use tables::Record;

// Price per level by kind of operation, which is the number of the line's word: no word, `in`, `const`, `neg`, `rot`, `add`, `mul` of two
// ciphertexts, `out`, `enc`, `rs`, `ms`, `us`; and last `mul` with a constant.
const PRICES: [u32; 13] = [0, 0, 0, 1, 32, 1, 40, 0, 2, 6, 1, 4, 4];

// The kind of a product: of two ciphertexts, or with a constant.
fn product(first: Kind, second: Kind) -> usize
    ensures { result ≡ product_of first second }
{
    if tables::is_ciphertext(first) {
        if tables::is_ciphertext(second) {
            return 6;
        }
    }
    12
}

// The kind of operation of a line, as its place among the prices.
#[tactic(auto, using(crate::proofs::Laws::operation_laws))]
fn operation(schedule: &[Record], count: usize, r: Record) -> usize
    requires count_in_bounds { count ≤ length schedule.now }
    requires t { T (is_word Schedule (line_of r)) }
    ensures result_value { get_or prices result 0 ≡ per_level (lines_held schedule.now count) (line_of r) }
    ensures small { result < 13 }
{
    match r.word {
        Word::Mul => {
            let first = tables::kind_at(schedule, count, r.first as u64);
            let second = tables::kind_at(schedule, count, r.second as u64);
            product(first, second)
        }
        word => tables::number_of(word) as usize,
    }
}

// The price per level of a line.
#[tactic(auto, using(crate::proofs::Laws::price_table))]
fn per_level(schedule: &[Record], count: usize, r: Record) -> u32
    requires count_in_bounds { count ≤ length schedule.now }
    requires t { T (is_word Schedule (line_of r)) }
    ensures value { result ≡ per_level (lines_held schedule.now count) (line_of r) }
    ensures small { result ≤ 40 }
{
    PRICES[operation(schedule, count, r)]
}

// A level and those below it, so many in all, summed.
#[tactic(auto, using(crate::proofs::Laws::sum_laws))]
fn summed_down(level: u32, count: u32) -> u32
    requires count_le_level { count ≤ level }
    requires level_bound { level ≤ 60 }
    ensures value { result ≡ summed (down_from level count) }
    ensures small { result ≤ 3600 }
{
    let mut total: u32 = 0;
    for done in 0..count {
        total += level - done;
    }
    total
}

// The levels at which the operations of a line start, summed, where its operand has this level: of C rescales or modswitches each has its own.
#[tactic(auto, using(crate::proofs::Laws::start_laws), unfolding(tables::specs::Records::line_of, crate::specs::Levels::summed_starts))]
fn summed_starts(header: Header, r: Record, level: u32) -> u32
    requires { OnLevel header (line_of r) level }
    ensures value { result ≡ summed_starts (line_of r) level }
    ensures small { result ≤ 3600 }
{
    match r.word {
        Word::In | Word::Const | Word::Out => 0,
        Word::Enc => r.third as u32,
        Word::Rs | Word::Ms => summed_down(level, r.second as u32),
        _ => level,
    }
}

// The level that a line has, where its operand has this one.
#[tactic(auto, using(crate::proofs::Laws::after_laws), unfolding(tables::specs::Records::line_of))]
fn level_after(header: Header, r: Record, level: u32) -> u32
    requires { OnLevel header (line_of r) level }
    ensures value { result ≡ level_after header (line_of r) level }
    ensures small { result ≤ 60 }
{
    match r.word {
        Word::In => header.top,
        Word::Const => 0,
        Word::Enc => r.third as u32,
        Word::Rs | Word::Ms => level - (r.second as u32),
        _ => level,
    }
}

// The price of the schedule. That it keeps the rules is a clause and no ghost field: a field has to be a proposition, and the ways to keep them are data.
// A line costs at most 40 times 3,600, so that of 1,792 lines the price has fewer than 32 bits.
#[tactic(auto, using(crate::proofs::Pricing::price_laws))]
pub fn table_price(header: Header, schedule: &[Record], count: usize) -> u32
    requires { RuledTable header schedule.now count }
    ensures { IsPrice header (lines_held schedule.now count) result }
{
    let mut levels = [0u16; 1792];
    let mut price: u32 = 0;
    for i in 0..count {
        let record = schedule[i];
        let a = operands::first_of(record) as usize;
        let level = levels[a] as u32;
        price += per_level(schedule, count, record) * summed_starts(header, record, level);
        levels[i] = level_after(header, record, level) as u16;
    }
    price
}
