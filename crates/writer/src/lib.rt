// Writes the file that a table holds as text into a buffer that is lent, and says beforehand how long the text is: one text, put into what
// takes texts.
#![tactic(auto)]

ghost use Rattle.std.specs.Prelude.{◌≡◌, [], ◌∷◌, ◌+◌, ◌≤◌, length, map, pos};
ghost use Rattle.fields.specs.Pieces.{tab, line_feed, join};
ghost use Rattle.fields.specs.Numbers.{decimal};
ghost use Rattle.rows.specs.Forms.{said_text};
ghost use Rattle.rows.specs.Lines.{text_of};
ghost use Rattle.model.specs.Words.{ascii};
ghost use Rattle.text.specs.Tables.{file_of};
ghost use Rattle.tables.specs.Records.{held};
ghost use Rattle.text.specs.Files.{header_under, line_form, text_under};
ghost use Rattle.spelling.specs.Put.{Put, Counted};
ghost use Rattle.writer.specs.Writing.{Written};

use model::{Header, Line};
use spelling::sinks::{Buffer, Counter, Sink};
use tables::Record;

// ---- lines, each closed by a line feed
// The one after a word and numbers; `put_line` puts its own.
fn end_line<S: Sink>(sink: &mut S)
    requires { S.can_take sink.old (line_feed ∷ []) }
    ensures { S.took sink.old (line_feed ∷ []) sink.new }
{
    sink.put_byte(b'\n')
}

// A free record has no fields.
fn put_line<S: Sink>(sink: &mut S, line: Line)
    requires { S.can_take sink.old (text_of (line_form.text line ∷ [])) }
    ensures { S.took sink.old (text_of (line_form.text line ∷ [])) sink.new }
{
    linefields::put_fields(sink, line);
    sink.put_byte(b'\n');
}

// A word and numbers after it.
fn put_said_line<S: Sink, const N: usize>(sink: &mut S, word: &[u8], numbers: [u32; N])
    requires { S.can_take sink.old (text_of (join tab (word.now ∷ map decimal numbers) ∷ [])) }
    ensures { S.took sink.old (text_of (join tab (word.now ∷ map decimal numbers.entry) ∷ [])) sink.new }
{
    spelling::put_said(sink, word, numbers);
    end_line(sink);
}

// The header line: a word and three numbers, and the headroom where it is given.
fn put_header<S: Sink>(sink: &mut S, word: &[u8], header: Header)
    requires { S.can_take sink.old (text_of ((header_under word.now).text header ∷ [])) }
    ensures { S.took sink.old (text_of ((header_under word.now).text header ∷ [])) sink.new }
{
    let Header {
        factor,
        waterline,
        top,
        headroom,
    } = header;
    match headroom {
        None => put_said_line(sink, word, [factor, waterline, top]),
        Some(bits) => put_said_line(sink, word, [factor, waterline, top, bits]),
    }
}

// The line of a refusal.
pub fn put_refused(out: &mut [u8], at: usize, number: u32, place: u32) -> usize
    requires { at + length (text_of (said_text (ascii "refused") (pos number ∷ pos place ∷ []) ∷ [])) ≤ length out.old }
    ensures { Put out.old at (text_of (said_text (ascii "refused") (pos number ∷ pos place ∷ []) ∷ [])) result out.new }
{
    let mut buffer = Buffer { bytes: out, at };
    put_said_line(&mut buffer, b"refused", [number, place]);
    buffer.at
}

// ---- the file under a header word
fn put_text<S: Sink>(sink: &mut S, word: &[u8], header: Header, records: &[Record], count: usize)
    requires records_len { length records.now ≡ 1792 }
    requires count_bound { count ≤ 1792 }
    requires room { S.can_take sink.old (text_under word.now (file_of (held header records.now count))) }
    ensures { S.took sink.old (text_under word.now (file_of (held header records.now count))) sink.new }
{
    put_header(sink, word, header);
    for i in 0..count {
        let line = tables::line_at(records, i);
        put_line(sink, line);
    }
}

// How long the text is: at most 93 bytes for the header line, and 72 for each of 1,792 lines.
pub fn file_len<'a>(word: &'a [u8], header: Header, records: &'a [Record], count: usize) -> usize
    requires word_len_bound { length word.now ≤ 8 }
    requires records_len { length records.now ≡ 1792 }
    requires count_bound { count ≤ 1792 }
    ensures { Counted (text_under word.now (file_of (held header records.now count))) 129117 result }
{
    let mut counter = Counter { count: 0 };
    put_text(&mut counter, word, header, records, count);
    counter.count
}

// Writes the text at the front of the buffer, of which nothing else changes, and returns its length.
pub fn put_file<'a>(
    out: &mut [u8],
    word: &'a [u8],
    header: Header,
    records: &'a [Record],
    count: usize,
) -> usize
    requires records_len { length records.now ≡ 1792 }
    requires count_bound { count ≤ 1792 }
    requires count_in_bounds { length (text_under word.now (file_of (held header records.now count))) ≤ length out.old }
    ensures { Written out.old (text_under word.now (file_of (held header records.now count))) result out.new }
{
    let mut buffer = Buffer { bytes: out, at: 0 };
    put_text(&mut buffer, word, header, records, count);
    buffer.at
}
