// Puts the fields of a line, by its word, into what takes texts, and says how many bytes they are.
#![tactic(auto)]

ghost use Rattle.text.specs.Files.{line_form};
ghost use Rattle.spelling.specs.Put.{Counted};

use model::Line;
use spelling::sinks::{Counter, Sink};

// A free record has no fields.
pub fn put_fields<S: Sink>(sink: &mut S, line: Line)
    requires { S.can_take sink.old (line_form.text line) }
    ensures { S.took sink.old (line_form.text line) sink.new }
{
    match line {
        Line::In => sink.put_bytes(b"in"),
        Line::Const(k) => spelling::put_said(sink, b"const", [k]),
        Line::Neg(a) => spelling::put_said(sink, b"neg", [a as u32]),
        Line::Rot(a, t) => {
            spelling::put_said(sink, b"rot", [a as u32]);
            spelling::put_amount_field(sink, t);
        }
        Line::Add(a, b) => spelling::put_said(sink, b"add", [a as u32, b as u32]),
        Line::Mul(a, b) => spelling::put_said(sink, b"mul", [a as u32, b as u32]),
        Line::Out(a) => spelling::put_said(sink, b"out", [a as u32]),
        Line::Enc { of, scale, level } => {
            spelling::put_said(sink, b"enc", [of as u32, scale as u32, level as u32])
        }
        Line::Rs(a, c) => spelling::put_said(sink, b"rs", [a as u32, c as u32]),
        Line::Ms(a, c) => spelling::put_said(sink, b"ms", [a as u32, c as u32]),
        Line::Us(a, b) => spelling::put_said(sink, b"us", [a as u32, b as u32]),
        Line::Free => {}
    }
}

// How many bytes that is, of one line alone: what writes a file counts it whole.
pub fn fields_len(line: Line) -> usize
    ensures { Counted (line_form.text line) 71 result }
{
    let mut counter = Counter { count: 0 };
    put_fields(&mut counter, line);
    counter.count
}
