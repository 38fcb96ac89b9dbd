// Spells a word and the numbers after it: once, for a buffer that is lent and for a count of bytes alike.
#![tactic(auto)]

ghost use Rattle.std.specs.Prelude.{◌≡◌, [], ◌∷◌, ◌+◌, ◌*◌, ◌^◌, ◌≤◌, ◌<◌, length, map, nat_abs};
ghost use Rattle.fields.specs.Pieces.{tab, join};
ghost use Rattle.fields.specs.Numbers.{decimal, amount_text};
ghost use Rattle.spelling.specs.Put.{Put, Counted, last_digit, is_negative};

pub mod sinks;

use sinks::{Counter, Sink};

// ---- numbers, in decimal digits
// The place goes beside the buffer here, since each call hands on the place that it reached: with a `Buffer` it is no plainer.
// The last digit of n.
#[tactic(auto, using(crate::proofs::Puts::put_one))]
fn put_digit(out: &mut [u8], at: usize, n: u32) -> usize
    requires { at < length out.old }
    ensures { Put out.old at (last_digit n ∷ []) result out.new }
{
    out[at] = b'0' + ((n % 10) as u8);
    at + 1
}

// Most numbers have one to three digits, which need no call for a hundredth.
#[tactic(auto, using(crate::proofs::Digits::last_room, crate::proofs::Digits::digit_puts))]
fn put_number(out: &mut [u8], at: usize, n: u32) -> usize
    requires { at + length (decimal n) ≤ length out.old }
    ensures { Put out.old at (decimal n) result out.new }
{
    if n < 10 {
        return put_digit(out, at, n);
    }
    if n < 100 {
        let next = put_digit(out, at, n / 10);
        return put_digit(out, next, n);
    }
    if n < 1000 {
        let next = put_digit(out, at, n / 100);
        let last = put_digit(out, next, n / 10);
        return put_digit(out, last, n);
    }
    let next = put_number(out, at, n / 100);
    let last = put_digit(out, next, n / 10);
    put_digit(out, last, n)
}

// Most numbers have at most five digits, which need no division.
#[tactic(auto, using(crate::proofs::Digits::number_lengths))]
fn number_len(n: u32) -> usize
    ensures { Counted (decimal n) 20 result }
{
    if n < 10 {
        return 1;
    }
    if n < 100 {
        return 2;
    }
    if n < 1000 {
        return 3;
    }
    if n < 10000 {
        return 4;
    }
    if n < 100000 {
        return 5;
    }
    number_len(n / 100000) + 5
}

#[tactic(auto, using(crate::proofs::Signs::same_sign))]
fn is_negative(amount: i16) -> bool
    ensures { result ≡ is_negative amount }
{
    amount < 0
}

fn magnitude(amount: i16) -> u32
    ensures { result ≡ nat_abs amount }
{
    amount.unsigned_abs() as u32
}

// A rotation amount: its digits, after a minus if it is below 0.
fn put_amount<S: Sink>(sink: &mut S, amount: i16)
    requires { S.can_take sink.old (amount_text amount) }
    ensures { S.took sink.old (amount_text amount) sink.new }
{
    if is_negative(amount) {
        sink.put_byte(b'-');
    }
    sink.put_number(magnitude(amount));
}

// ---- fields: a field with the tab before it, of a number or of an amount, two lines each; and a word with the fields after it
fn put_number_field<S: Sink>(sink: &mut S, n: u32)
    requires { S.can_take sink.old (tab ∷ decimal n) }
    ensures { S.took sink.old (tab ∷ decimal n) sink.new }
{
    sink.put_byte(b'\t'); // before each number, the first too
    sink.put_number(n);
}

pub fn put_amount_field<S: Sink>(sink: &mut S, amount: i16)
    requires { S.can_take sink.old (tab ∷ amount_text amount) }
    ensures { S.took sink.old (tab ∷ amount_text amount) sink.new }
{
    sink.put_byte(b'\t');
    put_amount(sink, amount);
}

// A word, and then each number as a field. Without the hint a quote of 250 lines takes a hundredth longer.
#[inline(always)]
pub fn put_said<S: Sink, const N: usize>(sink: &mut S, word: &[u8], numbers: [u32; N])
    requires { S.can_take sink.old (join tab (word.now ∷ map decimal numbers)) }
    ensures { S.took sink.old (join tab (word.now ∷ map decimal numbers.entry)) sink.new }
{
    sink.put_bytes(word);
    for n in numbers {
        put_number_field(sink, n);
    }
}

// ---- lengths: how many bytes such texts have, and at most. What writes a whole text counts it whole; these say it of a part.
// A word and numbers: at most 21 bytes for each number and its tab.
pub fn said_len<const N: usize>(word: &[u8], numbers: [u32; N]) -> usize
    requires word_len_bound { length word.now ≤ 8 }
    requires count_bound { N < 2 ^ 32 }
    ensures { Counted (join tab (word.now ∷ map decimal numbers.entry)) (8 + 21 * N) result }
{
    let mut said_bytes = Counter { count: 0 };
    put_said(&mut said_bytes, word, numbers);
    said_bytes.count
}

fn amount_len(amount: i16) -> usize
    ensures { Counted (amount_text amount) 21 result }
{
    let mut amount_bytes = Counter { count: 0 };
    put_amount(&mut amount_bytes, amount);
    amount_bytes.count
}

// A word, a number and an amount.
pub fn rot_len(word: &[u8], a: u32, amount: i16) -> usize
    requires { length word.now ≤ 8 }
    ensures { Counted (join tab (word.now ∷ decimal a ∷ amount_text amount ∷ [])) 51 result }
{
    said_len(word, [a]) + 1 + amount_len(amount)
}
