// The desk: worked cases from its input, one a line, each written back with what the library says of it.
// `verdict BODY` asks for the verdict on a body, `read BYTES` for one reading, `report BODY` for a report's values in words (crates/telling); the
// lines of a played session are those of crates/rehearsal.
// `|` is the byte 1; a line that begins with # is a heading.
#![tactic(auto)]

ghost use Rattle.std.specs.Prelude.{◌≤◌, length};

use dictionary::Unclean;
use moves::Record;
use print::print_bytes;
use std::io;
use std::io::Read;
use telling::tell_report;

// The byte 1 for `|`.
fn unbar(s: &mut [u8]) {
    for c in s.iter_mut() {
        if *c == b'|' {
            *c = 1;
        }
    }
}

// A case as it was asked, the long ones by their first bytes and their length.
fn print_case(rt: &impl Print, s: &[u8]) -> io::Result<()> {
    if s.len() <= 200 {
        return print_bytes(rt, s);
    }
    let (front, _) = s.split_at(60);
    print_bytes(rt, front)?;
    print!(rt; ".. in a line of {} bytes", s.len())
}

fn judge(rt: &impl Print, body: &[u8]) -> io::Result<()> {
    match dictionary::verdict_on(body) {
        Ok(()) => rt.println(" clean"),
        Err(Unclean::Found(f)) => println!(rt; " reason {}, tag {}", f.reason, f.tag),
        Err(Unclean::NoBody) => rt.println(" refusal 10"),
    }
}

fn read(rt: &impl Print, bytes: &[u8]) -> io::Result<()> {
    match frame::reading_of(bytes) {
        Ok(found) => println!(rt; " skip {}, frame of {}", found.skip, found.len),
        Err(none) => println!(rt; " refusal 1, drop {}", none.drop),
    }
}

// Answers one line; a played session goes on with the record that this returns.
fn answer(rt: &impl Print, r: Record, line: &[u8], store: &mut [u8]) -> io::Result<Record> {
    print_case(rt, line)?;
    if let Some(body) = line.strip_prefix(b"verdict ") {
        judge(rt, body)?;
        return Ok(r);
    }
    if let Some(bytes) = line.strip_prefix(b"read ") {
        read(rt, bytes)?;
        return Ok(r);
    }
    if let Some(body) = line.strip_prefix(b"report ") {
        tell_report(rt, body)?;
        return Ok(r);
    }
    rt.println("")?;
    rehearsal::play(rt, r, line, store)
}

fn answer_all(rt: &impl Print, s: &[u8]) -> io::Result<()> {
    let mut r = rehearsal::nobody();
    let mut store = [0u8; 32_768];
    for piece in s.split_inclusive(|c| *c == b'\n') {
        let line = piece.strip_suffix(b"\n").unwrap_or(piece);
        r = answer(rt, r, line, &mut store)?;
    }
    Ok(())
}

// Reads until the bytes are full, the input ends or a read fails, and returns how many it put at their start. (A loop, since the library's `read_to_end`
// wants a heap, and its `read_exact` doesn't say how much it read of an input that ends before.)
fn read_full(input: &mut impl Read, buf: &mut [u8]) -> usize
    ensures { result ≤ length buf.new }
{
    let mut done = 0;
    while done < buf.len() {
        match input.read(&mut buf[done..]) {
            Ok(0) => break,
            Ok(n) => done += n,
            Err(_) => break,
        }
    }
    done
}

fn main(rt: HostRuntime) -> io::Result<()> {
    let mut buf = [0u8; 131_072];
    let n = read_full(&mut rt.stdin(), &mut buf);
    unbar(&mut buf);
    answer_all(&rt, &buf[..n])?;
    samples::letters(&rt)
}
