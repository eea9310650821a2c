// The calls on a session's record, which lies in bytes and words of the host's. Each loads it, makes its call and hands on what is left. The call is no
// closure: it changes the buffer that it borrows, and behind a closure no clause says how.
ghost use Rattle.gateway.specs.Calls.{NewOut, ReconnectOut, StepOut, TickOut, LogoutOut, TestRequestOut};

use border::{delivered, leave, load, number_of, refuse, replied, save_new};
use session::Refusal;

// The record of a new session between two CompIDs; refusal 11 leaves one that is Closed and has none.
#[unsafe(no_mangle)]
pub extern "C" fn fixgw_new(ids: &mut [u8; 24], words: &mut [u64], us: &[u8], them: &[u8]) -> u32
    ensures { NewOut ids.old words.old us.now them.now result ids.new words.new }
{
    if words.len() != 24 {
        return u32::from(Refusal::BadRecord);
    }
    let left = session::new(us, them);
    save_new(ids, words, left.after);
    number_of(left.answer)
}

// A reconnect: the status becomes Waiting.
#[unsafe(no_mangle)]
pub extern "C" fn fixgw_reconnect(ids: &[u8; 24], words: &mut [u64]) -> u32
    ensures { ReconnectOut ids.now words.old result words.new }
{
    let Some(r) = load(ids, words) else {
        return u32::from(Refusal::BadRecord);
    };
    leave(words, session::reconnect(r))
}

// A step: one frame moves the record on, and the reply stands at the front of the buffer. An accepted logon with 141=Y zeroes the store.
#[unsafe(no_mangle)]
pub extern "C" fn fixgw_step(
    ids: &[u8; 24],
    words: &mut [u64],
    frame: &[u8],
    time: u64,
    buf: &mut [u8],
    store: &mut [u8],
    out: &mut [u64; 2],
) -> u32
    ensures { StepOut ids.now words.old frame.now time buf.old store.old result words.new out.new buf.new store.new }
{
    let Some(r) = load(ids, words) else {
        return refuse(out, Refusal::BadRecord);
    };
    let left = session::step(r, frame, time, buf, store);
    *out = [delivered(left.answer), left.len as u64];
    leave(words, left)
}

// A tick: a Heartbeat, if one is due, stands at the front of the buffer.
#[unsafe(no_mangle)]
pub extern "C" fn fixgw_tick(
    ids: &[u8; 24],
    words: &mut [u64],
    time: u64,
    buf: &mut [u8],
    out: &mut [u64; 1],
) -> u32
    ensures { TickOut ids.now words.old time buf.old result words.new out.new buf.new }
{
    let Some(r) = load(ids, words) else {
        return refuse(out, Refusal::BadRecord);
    };
    replied(words, out, session::tick(r, time, buf))
}

// The venue's own Logout stands at the front of the buffer, and the record is Closed.
#[unsafe(no_mangle)]
pub extern "C" fn fixgw_logout(
    ids: &[u8; 24],
    words: &mut [u64],
    time: u64,
    buf: &mut [u8],
    out: &mut [u64; 1],
) -> u32
    ensures { LogoutOut ids.now words.old time buf.old result words.new out.new buf.new }
{
    let Some(r) = load(ids, words) else {
        return refuse(out, Refusal::BadRecord);
    };
    replied(words, out, session::logout(r, time, buf))
}

// The venue's own Test Request with this 112 stands at the front of the buffer.
#[unsafe(no_mangle)]
pub extern "C" fn fixgw_test_request(
    ids: &[u8; 24],
    words: &mut [u64],
    id: &[u8],
    time: u64,
    buf: &mut [u8],
    out: &mut [u64; 1],
) -> u32
    ensures { TestRequestOut ids.now words.old id.now time buf.old result words.new out.new buf.new }
{
    let Some(r) = load(ids, words) else {
        return refuse(out, Refusal::BadRecord);
    };
    replied(words, out, session::test_request(r, id, time, buf))
}
