// Reads the texts on standard input and prints of each its table, as text, or its refusal. `stdin` has good and damaged texts, and `stdout` what they
// must come to, worked out by hand from documents 01 and 02.
//
// A text stands after a line that begins with `c`, `s`, `e` or `r`, for a circuit, a schedule, a schedule for erasing and a listing, and ends before a
// byte 28. Of a listing the table is printed as it holds the lines: levels counted down, and `ds A` as `rs A 0`.
#![tactic(auto)]

use model::{Header, Refusal};
use reader::FileTable;
use std::io::{self, Print};
use tables::Record;

fn print_front(rt: &impl Print, bytes: &[u8], n: usize) -> io::Result<()> {
    if n <= bytes.len() {
        rt.write_all(&bytes[..n])?;
    }
    Ok(())
}

fn print_table<'a>(
    rt: &impl Print,
    word: &'a [u8],
    header: Header,
    records: &'a [Record],
    count: usize,
) -> io::Result<()> {
    let mut out = [0u8; 65536];
    if 8 < word.len() {
        return Ok(());
    }
    if 1792 != records.len() {
        return Ok(());
    }
    if 1792 < count {
        return Ok(());
    }
    if 65536 < writer::file_len(word, header, records, count) {
        return Ok(());
    }
    let n = writer::put_file(&mut out, word, header, records, count);
    print_front(rt, &out, n)
}

fn print_refusal(rt: &impl Print, refusal: Refusal) -> io::Result<()> {
    println!(rt; "refused\t{}\t{}", refusal.fault.number(), refusal.place)
}

fn print_reading<'a>(
    rt: &impl Print,
    word: &'a [u8],
    reading: Result<FileTable, Refusal>,
    records: &'a [Record],
) -> io::Result<()> {
    match reading {
        Ok(FileTable { header, count }) => print_table(rt, word, header, records, count),
        Err(refusal) => print_refusal(rt, refusal),
    }
}

fn print_text(rt: &impl Print, kind: u8, text: &[u8]) -> io::Result<()> {
    let mut records = [tables::FREE; 1792];
    let (word, reading): (&[u8], Result<FileTable, Refusal>) = match kind {
        b'c' => (b"circuit", reader::read_circuit(text, &mut records)),
        b's' => (b"schedule", reader::read_schedule(text, &mut records)),
        b'r' => (b"rising", reader::read_listing(text, &mut records)),
        _ => (b"schedule", reader::read_erase(text, &mut records)),
    };
    print_reading(rt, word, reading, &records)
}

// One text after its line.
fn print_entry(rt: &impl Print, entry: &[u8]) -> io::Result<()> {
    let end = fields::find(entry, b'\n');
    if end == entry.len() {
        return Ok(());
    }
    print_front(rt, entry, end + 1)?;
    print_text(rt, entry[0], &entry[end + 1..])
}

fn print_all(rt: &impl Print, texts: &[u8]) -> io::Result<()> {
    let mut at: usize = 0;
    // Where a text ends is known once it is found, so the turns are not counted.
    while at < texts.len() {
        let rest = &texts[at..];
        let end = fields::find(rest, 28);
        print_entry(rt, &rest[..end])?;
        at = at + end + 1;
    }
    Ok(())
}

fn main(rt: HostRuntime) -> io::Result<()> {
    let mut texts = [0u8; 65536];
    let n = inputs::read_full(&mut rt.stdin(), &mut texts)?;
    print_all(&rt, &texts[..n])
}
