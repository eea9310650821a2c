// The writer: one administrative message from its values.
#![tactic(auto)]

mod fill;
mod slots;
mod types;

ghost use Rattle.std.specs.Prelude.{◌≡◌, true, ◌≤◌, length};
ghost use Rattle.table.specs.Dictionary.{code35, administrative};
ghost use Rattle.message.specs.Message.{framed};
ghost use Rattle.writer.specs.Call.{fitted, value_in, Writes};
ghost use Rattle.writer.specs.code.Held.{PutBody};

use fill::{admin_of, put_values};
use message::{frame_length, put_field, put_frame};
use table::MsgType;

// A value that is given: a number is `a`; bytes stand in the text beside the values, from `a` to `b`.
#[derive(Clone, Copy)]
pub struct Given {
    pub a: u64,
    pub b: u64,
}

// The values of one message. Each of the 21 tags has its place (specs/Tags.antt).
pub type Values = [Option<Given>; 21];

// The refusals of the writer call, by their numbers.
#[derive(Clone, Copy, PartialEq, Eq, Debug)]
pub enum Unwritten {
    Unfit = 8,
    Short = 9,
}

// The body of a message, if its values are fit.
fn put_body(body: &mut [u8], m: MsgType, code: &[u8], values: &Values, text: &[u8]) -> Option<usize>
    requires { (administrative m ≡ true) × (code.now ≡ code35 m) × (768 ≤ length body.old) }
    ensures { PutBody m (value_in values.now text.now) body.old body.new result }
{
    let at = put_field(body, 0, 35, code);
    put_values(body, at, m, values, text)
}

// The frame around a body at the front of a buffer, if it fits there.
fn put_message(buf: &mut [u8], body: &[u8]) -> Result<usize, Unwritten>
    requires { length body.now ≤ 2048 }
    ensures { record { answer = result; buffer = buf.new } ≡ fitted (framed body.now) buf.old }
{
    let len = frame_length(body.len());
    if buf.len() < len {
        return Err(Unwritten::Short);
    }
    put_frame(buf, 0, body);
    Ok(len)
}

// One administrative message from its values, at the front of a buffer: its length; or refusal 8 or 9, with the buffer as it was.
pub fn write(code: &[u8], values: &Values, text: &[u8], buf: &mut [u8]) -> Result<usize, Unwritten>
    ensures { Writes code.now values.now text.now buf.old result buf.new }
{
    let Some(m) = admin_of(code) else {
        return Err(Unwritten::Unfit);
    };
    let mut body = [0u8; 768];
    let Some(n) = put_body(&mut body, m, code, values, text) else {
        return Err(Unwritten::Unfit);
    };
    put_message(buf, &body[..n])
}
