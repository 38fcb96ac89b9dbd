// From what a service comes to, to its reply: a refusal, an answer on tables that were read, or a table's text in the buffer that is lent.
#![tactic(auto)]

ghost use Rattle.std.specs.Prelude.{◌≡◌, ◌≤◌, leb, length};
ghost use Rattle.model.specs.Refusals.{number_of};
ghost use Rattle.model.specs.declared.Answer.TheVariants.{Refused};
ghost use Rattle.tables.specs.Records.{held};
ghost use Rattle.text.specs.Tables.{file_of};
ghost use Rattle.text.specs.Files.{text_under};
ghost use Rattle.services.specs.Outcomes.{writes, tells, refuses, reply_of, Replied};
ghost use Rattle.services.specs.Calls.{answered};
ghost use Rattle.replies.specs.Told.{refused_by, reply_to};

use model::{Fault, Header, Refusal};
use services::Reply;
use tables::Record;

// A refusal, and which of a call's files has it, counted from 1 in the order read; 0 for none.
#[derive(Clone, Copy)]
pub struct FileRefusal {
    pub file: u32,
    pub refusal: Refusal,
}

// Where nothing else is said a call's first file has it: most calls read one.
impl From<Refusal> for FileRefusal {
    ghost from_gives = { λ r e. e ≡ record { file = 1; refusal = r } };

    fn from(refusal: Refusal) -> FileRefusal {
        FileRefusal { file: 1, refusal }
    }
}

// A refusal of files that were read: none has it with place 0, and with 12 it is the circuit.
pub fn at_fault(file: u32, refusal: Refusal) -> FileRefusal
    ensures { refused_by result ≡ answered file (Refused (number_of refusal.fault) refusal.place) }
{
    if refusal.place == 0 {
        return FileRefusal { file: 0, refusal };
    }
    if refusal.fault == Fault::AnotherCircuit {
        return FileRefusal { file: 1, refusal };
    }
    FileRefusal { file, refusal }
}

// The reply of a call that tells a number, or how many bytes it has written.
pub fn reply(outcome: Result<u32, FileRefusal>) -> Reply
    ensures { result ≡ reply_to outcome }
{
    match outcome {
        Ok(number) => told(number),
        Err(refused) => {
            let fault = refused.refusal.fault;
            refusal(fault.number(), refused.file, refused.refusal.place)
        }
    }
}

fn refusal(number: u32, file: u32, place: u32) -> Reply
    ensures { result ≡ reply_of (refuses number file place) }
{
    Reply {
        number: number,
        file: file,
        place: place,
        length: 0,
    }
}

// A file that is refused.
pub fn refused(file: u32, refused: Refusal) -> Reply
    ensures { result ≡ reply_of (refuses (number_of refused.fault) file refused.place) }
{
    let fault = refused.fault;
    refusal(fault.number(), file, refused.place)
}

// A number: a least level, an answer or a count, or how many bytes were written.
pub fn told(number: u32) -> Reply
    ensures { result ≡ reply_of (tells number) }
{
    Reply {
        number: 0,
        file: 0,
        place: 0,
        length: number,
    }
}

// The bytes that the text needs. No line is longer than 72 bytes, so where there is room for as many of those as there are lines, and for the
// header, the lines are not counted through.
fn bytes_needed<'a>(
    room: usize,
    word: &'a [u8],
    header: Header,
    records: &'a [Record],
    count: usize,
) -> usize
    requires word_len_bound { length word.now ≤ 8 }
    requires records_len { length records.now ≡ 1792 }
    requires count_bound { count ≤ 1792 }
    ensures { leb result room ≡ leb (length (text_under word.now (file_of (held header records.now count)))) room }
{
    let most = 72 * count + 97;
    if most <= room {
        return most;
    }
    writer::file_len(word, header, records, count)
}

// The text under a header word is written only when it is known to fit. The records come with their count: of an erasure's no one fact of a file holds.
pub fn put_text<'a>(
    out: &mut [u8],
    word: &'a [u8],
    header: Header,
    records: &'a [Record],
    count: usize,
) -> Result<u32, FileRefusal>
    requires word_len_bound { length word.now ≤ 8 }
    requires records_len { length records.now ≡ 1792 }
    requires count_bound { count ≤ 1792 }
    ensures { Replied (writes (text_under word.now (file_of (held header records.now count)))) out.old (reply_to result) out.new }
{
    let needed = bytes_needed(out.len(), word, header, records, count);
    if out.len() < needed {
        let short = Refusal {
            fault: Fault::BufferTooShort,
            place: 0,
        };
        return Err(FileRefusal {
            file: 0,
            refusal: short,
        });
    }
    let written = writer::put_file(out, word, header, records, count);
    Ok(written as u32)
}
