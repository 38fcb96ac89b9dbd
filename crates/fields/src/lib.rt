// A text by its places: where a byte stands, whether two pieces are the same bytes, and the number that stands at a place. A number ends at the
// first byte that is no digit; whether that byte may stand there is asked by whoever reads the line.
#![tactic(auto)]

ghost use Rattle.std.specs.Prelude.{◌≡◌, ◌+◌, ◌≤◌, T, pos, length, drop};
ghost use Rattle.fields.specs.Pieces.{same_bytes};
ghost use Rattle.fields.specs.Digits.{begins_digit, lone_zero};
ghost use Rattle.fields.specs.Places.{begins, has_minus, size_of, is_unsigned, negated_to, number_from, field_at, before};

// A number and the place past it. There is no number where what stands there is above the largest that the caller allows, on either side of zero.
#[derive(Clone, Copy)]
pub struct FieldAt {
    pub number: Option<i64>,
    pub end: usize,
}

// A number field has at most so many bytes, a minus among them.
const LONGEST_FIELD: usize = 11;

// How many bytes of s stand before the first x.
#[tactic(auto, using(crate::proofs::SearchLaws::byte_laws))]
pub fn find(s: &[u8], x: u8) -> usize
    ensures value { result ≡ before x s.now }
    ensures within { result ≤ length s.now }
{
    for i in 0..s.len() {
        if s[i] == x {
            return i;
        }
    }
    s.len()
}

// Whether two pieces are the same bytes.
pub fn same(a: &[u8], b: &[u8]) -> bool
    ensures { result ≡ same_bytes a.now b.now }
{
    a == b
}

// Whether the byte x stands at a place.
#[tactic(auto, using(crate::proofs::SearchLaws::byte_laws))]
pub fn is_at(s: &[u8], at: usize, x: u8) -> bool
    ensures { result ≡ begins x (drop at s.now) }
{
    at < s.len() && s[at] == x
}

// Whether a digit stands at a place.
#[tactic(auto, using(crate::proofs::SpanLaws::digit_laws))]
fn is_digit_at(s: &[u8], at: usize) -> bool
    ensures { result ≡ begins_digit (drop at s.now) }
{
    at < s.len() && s[at].is_ascii_digit()
}

// A number, unless it is above its caller's largest.
fn number_size(largest: u32, number: u64) -> Option<i64>
    ensures { result ≡ size_of largest (pos number) }
{
    if (largest as u64) < number {
        return None;
    }
    Some(number as i64)
}

// Whether so many digits, which spell this number, are one zero.
#[tactic(auto, unfolding(crate::specs::Digits::lone_zero))]
fn is_lone_zero(count: usize, value: u64) -> bool
    ensures { result ≡ lone_zero count value }
{
    count == 1 && value == 0
}

// The number of a field at a place, whose digits begin after `start` of its bytes, none or a minus: at least one digit, no zero in front of another digit,
// and no more bytes than a field has. One digit is read a turn: `position` is how many of the field's bytes have been read, and `value` the number that
// the digits among them spell.
fn number_at(s: &[u8], at: usize, start: usize, largest: u32) -> Option<FieldAt>
    requires start_in_bounds { at + start ≤ length s.now }
    requires start_bound { start ≤ 11 }
    ensures { result ≡ number_from start largest s.now at }
{
    let mut position = start;
    let mut value: u64 = 0;
    // No `for`: where the digits end is not known before they are read.
    while is_digit_at(s, at + position) {
        // A zero in front of another digit.
        if is_lone_zero(position - start, value) {
            return None;
        }
        // One byte too many.
        if position == LONGEST_FIELD {
            return None;
        }
        value = value * 10 + ((s[at + position] - b'0') as u64);
        position += 1;
    }
    if position == start {
        return None;
    }
    Some(FieldAt {
        number: number_size(largest, value),
        end: at + position,
    })
}

// Whether the field at a place begins with a minus. None is looked for in a field that may have no sign.
fn has_minus(s: &[u8], at: usize, signed: bool) -> bool
    ensures { result ≡ has_minus signed (drop at s.now) }
{
    signed && is_at(s, at, b'-')
}

// What a minus makes of the number that was read after it, which may not be zero. A number above the largest stays above it.
fn negated(read: FieldAt) -> Option<FieldAt>
    requires { T (is_unsigned read.number) }
    ensures { result ≡ negated_to read.end read.number }
{
    match read.number {
        Some(0) => None,
        Some(n) => Some(FieldAt {
            number: Some(-n),
            end: read.end,
        }),
        None => Some(read),
    }
}

// The number of a field, which may have a sign or may not, that stands at a place, against the largest that the caller allows.
pub fn field_at(s: &[u8], at: usize, signed: bool, largest: u32) -> Option<FieldAt>
    requires { at ≤ length s.now }
    ensures { result ≡ field_at signed largest s.now at }
{
    let minus = has_minus(s, at, signed);
    // A minus is one byte before the digits.
    let read = number_at(s, at, minus as usize, largest)?;
    if minus { negated(read) } else { Some(read) }
}
