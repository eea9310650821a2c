// The calls of Trade Capture Reports: one that the venue sends, those that it sends again, and the values of one out of its body.
ghost use Rattle.gateway.specs.Border.{ReportValuesOut};
ghost use Rattle.gateway.specs.Calls.{ReportOut, ReplayOut};

use crate::body::judged;
use border::{load, refuse, replied};
use report::Given;
use session::Refusal;

// The venue's Trade Capture Report of values that lie in 82 words and a text beside them stands at the front of the buffer, and in the
// store.
#[unsafe(no_mangle)]
pub extern "C" fn fixgw_report(
    ids: &[u8; 24],
    words: &mut [u64],
    values: &[u64; 82],
    text: &[u8],
    time: u64,
    buf: &mut [u8],
    store: &mut [u8],
    out: &mut [u64; 1],
) -> u32
    ensures { ReportOut ids.now words.old values.now text.now time buf.old store.old result words.new out.new buf.new store.new }
{
    let Some(r) = load(ids, words) else {
        return refuse(out, Refusal::BadRecord);
    };
    let given = Given {
        words: values,
        text,
    };
    replied(words, out, reporting::report(r, given, time, buf, store))
}

// The next message of a replay stands at the front of the buffer, if one is running; the store is only read.
#[unsafe(no_mangle)]
pub extern "C" fn fixgw_replay(
    ids: &[u8; 24],
    words: &mut [u64],
    time: u64,
    buf: &mut [u8],
    store: &[u8],
    out: &mut [u64; 1],
) -> u32
    ensures { ReplayOut ids.now words.old time buf.old store.now result words.new out.new buf.new }
{
    let Some(r) = load(ids, words) else {
        return refuse(out, Refusal::BadRecord);
    };
    replied(words, out, replaying::replay(r, time, buf, store))
}

// A report's values: where they lie in the body, or a reason and a tag; refusal 10 for bytes that are none.
#[unsafe(no_mangle)]
pub extern "C" fn fixgw_report_values(
    body: &[u8],
    values: &mut [u64; 82],
    out: &mut [u64; 3],
) -> u32
    ensures { ReportValuesOut body.now result values.new out.new }
{
    judged(readback::report_values(body, values), out)
}
