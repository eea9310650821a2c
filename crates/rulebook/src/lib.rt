// The moves: what a session does with the body of a good frame, decided rule by rule.
#![tactic(auto)]

mod low;
mod serving;

ghost use Rattle.std.specs.Prelude.{◌≡◌, eqb, Some};
ghost use Rattle.fields.specs.First.{First};
ghost use Rattle.dictionary.specs.Verdict.{msg_type};
ghost use Rattle.moves.specs.Moves.{N, acceptable, waiting, active, bare_reset, too_high, filled, in_turn};
ghost use Rattle.moves.specs.Held.{session_of};
ghost use Rattle.moves.specs.code.Plan.{planned, summed, closes, raised, rejected_by, strange_tag, is_bare_reset, Ready};
ghost use Rattle.moves.specs.code.Reads.{told};

use crate::low::rule_5;
use crate::serving::{serve, served_early};
use dictionary::{Finding, Unclean, verdict_on};
use fields::{Span, heads_of};
use gap::Gap;
use moves::{
    Letter, Plan, Record, accepting, asks_or_not, closing, counting, delivering, expecting, holds,
    holds_at, number, number_at, number_in, resetting, saying, type_in,
};
use table::MsgType;

// The body of a good frame is a body: NoBody is not met.
fn rejected(why: Unclean) -> Letter
    ensures { result ≡ rejected_by why }
{
    match why {
        Unclean::Found(Finding { reason, tag }) => Letter::Reject {
            reason: u64::from(reason),
            tag: u64::from(tag),
        },
        Unclean::NoBody => Letter::Reject { reason: 0, tag: 0 },
    }
}

// Rule 2: the tag of the CompID that is missing or not as it should be.
fn strange_tag(r: Record, body: &[u8], sender: Option<Span>, target: Option<Span>) -> Option<u64>
    requires { Ready r × First 49 body.now sender × First 56 body.now target }
    ensures { result ≡ strange_tag (session_of r) body.now }
{
    if !holds_at(body, 49, sender, &r.peer[..r.peerLen]) {
        return Some(49);
    }
    if !holds_at(body, 56, target, &r.ours[..r.oursLen]) {
        return Some(56);
    }
    None
}

// Whether a Logon can be accepted: its 34 can be read, its CompIDs are as they should be, and its verdict is clean.
pub fn is_acceptable(r: Record, body: &[u8]) -> bool
    requires { Ready r }
    ensures { result ≡ acceptable (session_of r) body.now }
{
    let h = heads_of(body);
    if number_at(body, 34, h.number, 1).is_none() {
        return false;
    }
    if strange_tag(r, body, h.sender, h.target).is_some() {
        return false;
    }
    verdict_on(body).is_ok()
}

// Rule 2: Reject 9 with the tag, then Logout; E + 1 if N = E.
fn rule_2(r: Record, n: u64, tag: u64) -> Plan
    requires { Ready r }
    ensures { result ≡ closes (session_of r) (Some (Letter.Reject 9 tag)) (Some (Letter.Logout 101)) (raised (eqb n r.expected) r.expected) }
{
    let e = if n == r.expected { n + 1 } else { r.expected };
    let reject = Letter::Reject { reason: 9, tag };
    let logout = Letter::Logout { why: 101 };
    closing(r, Some(reject), Some(logout), e)
}

// Rule 3: type 4 without 123=Y.
fn rule_3(r: Record, body: &[u8]) -> Plan
    ensures { planned body.now (session_of r) result ≡ summed (session_of r) (bare_reset (session_of r) body.now) }
{
    if let Err(why) = verdict_on(body) {
        return saying(r, Some(rejected(why)), None);
    }
    let to = number(body, 36);
    if to < r.expected {
        return saying(r, Some(Letter::Reject { reason: 5, tag: 36 }), None);
    }
    resetting(r, to)
}

// Rule 4: N > E. A Resend Request that can be served is, and the frame asks or not.
fn rule_4(r: Record, n: u64, kind: Option<MsgType>, body: &[u8], time: u64) -> Plan
    requires { Ready r × (n ≡ N (session_of r) body.now) × (kind ≡ told (msg_type body.now)) }
    ensures { planned body.now (session_of r) result ≡ summed (session_of r) (too_high (session_of r) body.now time) }
{
    let asked = asks_or_not(r, n, time);
    match served_early(r, kind, body) {
        Some(replay) => Plan { replay, ..asked },
        None => asked,
    }
}

// Rule 6, type 4: a gap fill.
fn filled(r: Record, n: u64, body: &[u8]) -> Plan
    requires { Ready r × (n ≡ N (session_of r) body.now) }
    ensures { planned body.now (session_of r) result ≡ summed (session_of r) (filled (session_of r) body.now) }
{
    let new = number(body, 36);
    if new <= n {
        return counting(r, Some(Letter::Reject { reason: 5, tag: 36 }));
    }
    expecting(r, new)
}

// Rule 6: N = E. No verdict is asked for on a Trade Capture Report.
fn rule_6(r: Record, n: u64, kind: Option<MsgType>, body: &[u8]) -> Plan
    requires { Ready r × (n ≡ N (session_of r) body.now) × (kind ≡ told (msg_type body.now)) }
    ensures { planned body.now (session_of r) result ≡ summed (session_of r) (in_turn (session_of r) body.now) }
{
    if kind == Some(MsgType::TradeCaptureReport) {
        return counting(r, Some(Letter::RejectType));
    }
    if let Err(why) = verdict_on(body) {
        return counting(r, Some(rejected(why)));
    }
    let up = r.expected + 1;
    let Some(kind) = kind else {
        return expecting(r, up);
    };
    match kind {
        MsgType::TestRequest => counting(r, Some(Letter::Echo)),
        MsgType::ResendRequest => serve(r, body),
        MsgType::SequenceReset => filled(r, n, body),
        MsgType::Logout => closing(r, Some(Letter::Logout { why: 4 }), None, up),
        MsgType::Logon => counting(
            r,
            Some(Letter::Reject {
                reason: 99,
                tag: 35,
            }),
        ),
        MsgType::TradeCaptureReportRequest => delivering(r),
        MsgType::OrderCancelRequest => delivering(r),
        MsgType::Heartbeat | MsgType::Reject | MsgType::TradeCaptureReport => expecting(r, up),
    }
}

// Whether a body is a Sequence Reset without 123=Y.
fn is_bare_reset(kind: Option<MsgType>, body: &[u8]) -> bool
    requires { kind ≡ told (msg_type body.now) }
    ensures { result ≡ is_bare_reset body.now }
{
    kind == Some(MsgType::SequenceReset) && !holds(body, 123, b"Y")
}

// While Active: the first rule that fits.
pub fn active(r: Record, body: &[u8], time: u64) -> Plan
    requires { Ready r }
    ensures { planned body.now (session_of r) result ≡ summed (session_of r) (active (session_of r) body.now time) }
{
    let h = heads_of(body);
    let e = r.expected;
    // Rule 1: 34 unreadable.
    let Some(n) = number_at(body, 34, h.number, 1) else {
        return closing(r, Some(Letter::Logout { why: 101 }), None, e);
    };
    if let Some(tag) = strange_tag(r, body, h.sender, h.target) {
        return rule_2(r, n, tag);
    }
    let kind = type_in(body);
    if is_bare_reset(kind, body) {
        return rule_3(r, body);
    }
    if e < n {
        return rule_4(r, n, kind, body, time);
    }
    if n < e {
        return rule_5(r, body);
    }
    rule_6(r, n, kind, body)
}

// While Waiting: a logon that is accepted, or is answered by our Logout.
pub fn waiting(r: Record, body: &[u8], time: u64) -> Plan
    requires { Ready r }
    ensures { planned body.now (session_of r) result ≡ summed (session_of r) (waiting (session_of r) body.now time) }
{
    let expected = r.expected;
    let Some(n) = number_in(body, 34, 1) else {
        return closing(r, Some(Letter::Logout { why: 101 }), None, expected);
    };
    let seconds = number(body, 108);
    let closed = Gap::none();
    if holds(body, 141, b"Y") {
        if n == 1 {
            return accepting(true, None, 2, seconds, closed);
        }
        return closing(r, Some(Letter::Logout { why: 101 }), None, expected);
    }
    if n < expected {
        return closing(r, Some(Letter::Logout { why: 101 }), None, expected);
    }
    if n == expected {
        return accepting(false, None, expected + 1, seconds, closed);
    }
    let gap = closed.asked_for(expected, n, time);
    let ask = Letter::Ask { from: expected };
    accepting(false, Some(ask), expected, seconds, gap)
}
