// A session played line by line: what each call answers, the messages that it sends, and the record that it leaves.
// `new OURS PEER`, `step TIME FRAME`, `tick TIME`, `replay TIME`, `reconnect`. A time is in microseconds since 1970.
#![tactic(auto)]

use frame::Found;
use gap::Gap;
use moves::Record;
use print::{cut_word, print_bytes};
use session::{Answer, Answered, Success};
use std::io;

// What there is before the first new session: both CompIDs are empty, and a step is refusal 11.
pub fn nobody() -> Record {
    session::new(b"", b"").after
}

fn print_answer(rt: &impl Print, answer: Answer) -> io::Result<()> {
    match answer {
        Ok(Success::Done) => rt.print("  done"),
        Ok(Success::Delivered) => rt.print("  delivered"),
        Ok(Success::NothingDue) => rt.print("  nothing due"),
        Err(refusal) => print!(rt; "  refusal {}", u32::from(refusal)),
    }
}

// The messages of a reply, each on its line.
fn print_messages(rt: &impl Print, reply: &[u8]) -> io::Result<()> {
    let mut rest = reply;
    while let Ok(Found { skip, len }) = frame::reading_of(rest) {
        let (sent, behind) = rest[skip..].split_at(len);
        rt.print("\n  sends ")?;
        print_bytes(rt, sent)?;
        rest = behind;
    }
    Ok(())
}

// A gap, if one is open.
fn print_gap(rt: &impl Print, g: Gap) -> io::Result<()> {
    if g.isOpen != 1 {
        return Ok(());
    }
    print!(rt; ", a gap for {} up to {}, asked ", g.expected, g.highest)?;
    print_bytes(rt, &calendar::utc(g.asked))
}

fn print_record(rt: &impl Print, r: Record) -> io::Result<()> {
    print!(rt;
        "\n  {:?}, expected {}, next out {}, heartbeat {} s, last sent ",
        r.status, r.expected, r.next, r.heartbeat
    )?;
    print_bytes(rt, &calendar::utc(r.sent))?;
    if r.replay.at != 0 {
        print!(rt; ", replay from {} to {}", r.replay.at, r.replay.to)?;
    }
    print_gap(rt, r.gap)?;
    rt.println("")
}

// A call's outcome in words, and the record to go on with.
fn told(rt: &impl Print, a: Answered, buf: &[u8]) -> io::Result<Record> {
    print_answer(rt, a.answer)?;
    if let Some(reply) = buf.get(..a.len) {
        print_messages(rt, reply)?;
    }
    print_record(rt, a.after)?;
    Ok(a.after)
}

// The outcome of a call that may write into a buffer.
fn called<F: FnOnce(&mut [u8]) -> Answered>(rt: &impl Print, call: F) -> io::Result<Record>
    requires { F.IsAlwaysCallable call }
{
    let mut buf = [0u8; 600];
    let a = call(&mut buf);
    told(rt, a, &buf)
}

// The number that a word writes, of at most 19 digits. Anything else is past all times.
fn time_of(word: &[u8]) -> u64 {
    let mut n: u64 = 0;
    for c in word {
        if !c.is_ascii_digit() || 999_999_999_999_999_999 < n {
            return u64::MAX;
        }
        n = n * 10 + u64::from(*c - b'0');
    }
    n
}

// The line's call, made on the record and its store. (A new session begins with a store of zeros.)
pub fn play(rt: &impl Print, r: Record, line: &[u8], store: &mut [u8]) -> io::Result<Record> {
    if let Some(names) = line.strip_prefix(b"new ") {
        let (ours, peer) = cut_word(names);
        places::zero_store(store);
        return told(rt, session::new(ours, peer), b"");
    }
    if let Some(words) = line.strip_prefix(b"step ") {
        let (time, frame) = cut_word(words);
        return called(rt, |buf| session::step(r, frame, time_of(time), buf, store));
    }
    if let Some(words) = line.strip_prefix(b"tick ") {
        let (time, _) = cut_word(words);
        return called(rt, |buf| session::tick(r, time_of(time), buf));
    }
    if let Some(words) = line.strip_prefix(b"replay ") {
        let (time, _) = cut_word(words);
        return called(rt, |buf| replaying::replay(r, time_of(time), buf, store));
    }
    if line.starts_with(b"reconnect") {
        return told(rt, session::reconnect(r), b"");
    }
    Ok(r)
}
