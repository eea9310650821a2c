// One of each administrative message, written by the writer call and written out; and what it refuses.
#![tactic(auto)]

ghost use Rattle.std.specs.Prelude.{◌<◌, ◌≤◌};

use print::print_bytes;
use std::io;
use writer::{Given, Values};

// The text that the bytes of the letters lie in: GW, MM, a time, Y, an identifier, a type, a text, 0, 9.
const TEXT: &[u8; 40] = b"GWMM20240102-09:30:00.000000YTEST1Dwhy09";

// The places of the values are those of the writer's tags: 49, 56, 34, 43, 52, 122, 112, 7, 16, 45, 371, 372, 373, 1409, 58, 123, 36, 98, 108, 1137, 141.
fn number(mut values: Values, place: usize, n: u64) -> Values
    requires { place < 21 }
{
    values[place] = Some(Given { a: n, b: 0 });
    values
}

fn bytes(mut values: Values, place: usize, start: u64, end: u64) -> Values
    requires { place < 21 }
{
    values[place] = Some(Given { a: start, b: end });
    values
}

// From GW to MM, number 2, at half past nine.
fn header() -> Values {
    let a = bytes([None; 21], 0, 0, 2);
    let b = bytes(a, 1, 2, 4);
    let c = number(b, 2, 2);
    bytes(c, 4, 4, 28)
}

fn print_front(rt: &impl Print, buf: &[u8], len: usize) -> io::Result<()> {
    match buf.get(..len) {
        Some(front) => print_bytes(rt, front),
        None => Ok(()),
    }
}

fn letter(rt: &impl Print, name: &str, code: &[u8], values: Values, room: usize) -> io::Result<()>
    requires { room ≤ 300 }
{
    print!(rt; "{name} ")?;
    let mut buf = [0u8; 300];
    match writer::write(code, &values, TEXT, &mut buf[..room]) {
        Ok(len) => print_front(rt, &buf, len)?,
        Err(refusal) => print!(rt; "refusal {}", refusal as u32)?,
    }
    println!(rt;)
}

// One with the values of the header alone.
fn bare(rt: &impl Print, name: &str, code: &[u8], room: usize) -> io::Result<()>
    requires { room ≤ 300 }
{
    letter(rt, name, code, header(), room)
}

fn asking(rt: &impl Print) -> io::Result<()> {
    bare(rt, "Heartbeat", b"0", 300)?;
    letter(rt, "Test Request", b"1", bytes(header(), 6, 29, 34), 300)?;
    letter(
        rt,
        "Resend Request",
        b"2",
        number(number(header(), 7, 5), 8, 0),
        300,
    )
}

fn mending(rt: &impl Print) -> io::Result<()> {
    let reject = number(number(number(header(), 9, 7), 10, 36), 12, 5);
    letter(
        rt,
        "Reject",
        b"3",
        bytes(bytes(reject, 11, 34, 35), 14, 35, 38),
        300,
    )?;
    let fill = bytes(bytes(header(), 3, 28, 29), 5, 4, 28);
    letter(
        rt,
        "Sequence Reset",
        b"4",
        number(bytes(fill, 15, 28, 29), 16, 9),
        300,
    )
}

fn parting(rt: &impl Print) -> io::Result<()> {
    letter(rt, "Logout", b"5", number(header(), 13, 0), 300)?;
    let logon = number(bytes(bytes(header(), 17, 38, 39), 19, 39, 40), 18, 30);
    letter(rt, "Logon", b"A", logon, 300)
}

fn refused(rt: &impl Print) -> io::Result<()> {
    bare(rt, "a type that is not written", b"F", 300)?;
    bare(rt, "a required value absent", b"1", 300)?;
    letter(
        rt,
        "a value that the message does not have",
        b"0",
        number(header(), 8, 0),
        300,
    )
}

fn out_of_place(rt: &impl Print) -> io::Result<()> {
    letter(
        rt,
        "a number out of its range",
        b"2",
        number(number(header(), 7, 0), 8, 0),
        300,
    )?;
    letter(
        rt,
        "a place outside the text",
        b"0",
        bytes(header(), 6, 39, 41),
        300,
    )
}

fn in_little_room(rt: &impl Print) -> io::Result<()> {
    bare(rt, "a buffer one byte short", b"0", 72)?;
    bare(rt, "a buffer that just holds it", b"0", 73)
}

pub fn letters(rt: &impl Print) -> io::Result<()> {
    println!(rt; "# Letters: one of each administrative message, and what is refused")?;
    asking(rt)?;
    mending(rt)?;
    parting(rt)?;
    refused(rt)?;
    out_of_place(rt)?;
    in_little_room(rt)
}
