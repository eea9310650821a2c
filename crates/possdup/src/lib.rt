// A kept report, sent again. Its body stands in its place from byte 17 on: 35, 49, 56 and 34 are copied as they are; then come 43=Y and the new 52; and
// the first 52 goes out as 122, so that from its value on all bytes are copied again.
#![tactic(auto)]

ghost use Rattle.std.specs.Prelude.{◌≡◌, ◌+◌, ◌≤◌, ◌<◌, length, Some};
ghost use Rattle.calendar.specs.Time.{limit};
ghost use Rattle.message.specs.Wrote.{Wrote};
ghost use Rattle.kept.specs.Kept.{held, number_of};
ghost use Rattle.possdup.specs.code.Again.{again_of};
ghost use Rattle.possdup.specs.code.Resent.{resent};

use calendar::utc;
use kept::CompIds;
use message::{put_bytes, put_frame, width};
use octets::number;

// The body of a kept report that is sent again, at the front of a buffer. From `at` on stands the first 52, from `end` on the trailer.
fn put_body(body: &mut [u8], place: &[u8], at: usize, end: usize, stamp: &[u8]) -> usize
    requires { (length body.old ≡ 522) × (length place.now ≡ 512) × (17 ≤ at) × (at + 3 ≤ end) × (end ≤ 505) × (length stamp.now ≡ 24) }
    ensures bytes { Wrote body.old body.new 0 result (resent place.now at end stamp.now) }
    ensures room { result ≤ 522 }
{
    let a = put_bytes(body, 0, &place[17..at]);
    let b = put_bytes(body, a, b"43=Y\x0152=");
    let c = put_bytes(body, b, stamp);
    let d = put_bytes(body, c, b"\x01122=");
    put_bytes(body, d, &place[at + 3..end])
}

// The report that a place holds under the number n, at the front of the buffer.
pub fn put_again(buf: &mut [u8], place: &[u8], ids: &CompIds, n: u64, time: u64) -> usize
    requires room { (length place.now ≡ 512) × (time < limit) × (600 ≤ length buf.old) }
    requires kept { Some n ≡ number_of (held ids.now.us.now ids.now.them.now place.now) }
    ensures bytes { Wrote buf.old buf.new 0 result (again_of ids.now.us.now ids.now.them.now time (held ids.now.us.now ids.now.them.now place.now)) }
    ensures room { result ≤ 600 }
{
    // 17 bytes before the body, and 18 that are neither CompID nor number.
    let at = 35 + ids.us.len() + ids.them.len() + width(n);
    let length = number(place, 13, 3);
    let end = 17 + length.value;
    let stamp = utc(time);
    let mut body = [0u8; 522];
    let k = put_body(&mut body, place, at, end, &stamp);
    put_frame(buf, 0, &body[..k])
}
