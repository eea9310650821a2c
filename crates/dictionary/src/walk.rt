// The walk along the fields of a body, and the verdict.
ghost use Rattle.std.specs.Prelude.{◌≡◌, true, false, ◌≤◌, length};
ghost use Rattle.fields.specs.Field.{parts, is_body};
ghost use Rattle.table.specs.Dictionary.{named};
ghost use Rattle.dictionary.specs.Verdict.{walk, msg_type, nothing_yet, verdict};
ghost use Rattle.dictionary.specs.code.Held.{is_report};

use super::ends::ended;
use super::groups::{State, remembered};
use super::nested::report_walk;
use super::rules::{of_known, of_unknown};
use super::{Finding, Unclean, Verdict};
use fields::{Item, is_body};
use table::{MsgType, look_up};

// The fields from the left; the first finding stands. No group of the nine types before the report holds another.
fn walk(m: MsgType, body: &[u8]) -> Verdict
    requires { (length body.now ≤ 2048) × (is_report m ≡ false) }
    ensures { result ≡ walk m nothing_yet (parts body.now) }
{
    let mut seen = [false; 128];
    let mut met = [false; 128];
    let mut st = State {
        over: false,
        group: None,
    };
    let mut at: usize = 0;
    loop {
        let item = fields::item_at(body, at);
        let Item::Field {
            tag,
            start,
            end,
            next,
        } = item
        else {
            return ended(m, item, st.group, &seen, &met);
        };
        at = next;
        let Some(k) = look_up(tag) else {
            of_unknown(m, st.group, &met, tag)?;
            st = State { group: None, ..st };
            continue;
        };
        let v = &body[start..end];
        of_known(m, st, k, &seen, &met, v)?;
        st = remembered(st, k, v, &mut seen, &mut met);
    }
}

// The type of a body, whose first field is 35: a value of one byte or two. (Where the value is empty, what is read in its place names no type.)
fn type_at_front(b: &[u8]) -> Option<MsgType>
    requires { is_body b.now ≡ true }
    ensures { result ≡ named (msg_type b.now) }
{
    if b[4] == 1 {
        return MsgType::of_one(b[3]);
    }
    if b[5] == 1 {
        return MsgType::of_two(b[3], b[4]);
    }
    None
}

// The verdict on a body.
pub fn verdict_on(body: &[u8]) -> Verdict
    ensures { result ≡ verdict body.now }
{
    if !is_body(body) {
        return Err(Unclean::NoBody);
    }
    let Some(m) = type_at_front(body) else {
        return Err(Unclean::Found(Finding {
            reason: 11,
            tag: 35,
        }));
    };
    if m == MsgType::TradeCaptureReport {
        return report_walk(body);
    }
    walk(m, body)
}
