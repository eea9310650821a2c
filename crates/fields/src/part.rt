// The parts of a body: where one ends, what it is, and whether bytes are a body.
ghost use Rattle.std.specs.Prelude.{◌≡◌, ◌≤◌, length};
ghost use Rattle.octets.specs.Bytes.{fix, starts};
ghost use Rattle.fields.specs.Field.{is_body};
ghost use Rattle.fields.specs.Item.{Cut};
ghost use Rattle.fields.specs.code.Scan.{Ends};

use crate::Item;
use octets::{calm, digits};

// The place of the first `|` from at on, or the length.
pub fn bar(s: &[u8], at: usize) -> usize
    requires { at ≤ length s.now }
    ensures { Ends s.now at result }
{
    for i in at..s.len() {
        if s[i] == 1 {
            return i;
        }
    }
    s.len()
}

// The same from a field's `=` on. Most values are short: eight bytes are looked at one by one, then sixteen at once as long as no `|` is among them.
fn value_end(s: &[u8], at: usize) -> usize
    requires { at ≤ length s.now }
    ensures { Ends s.now at result }
{
    if s.len() - at < 8 {
        return bar(s, at);
    }
    for k in 0..8 {
        if s[at + k] == 1 {
            return at + k;
        }
    }
    let mut i = at + 8;
    while 16 <= s.len() - i && calm(s, i, 16, 1) {
        i += 16;
    }
    bar(s, i)
}

// The part that begins at a place of any bytes. Its tag's digits are read once, and the search for `|` goes on behind them.
pub fn item_at(body: &[u8], at: usize) -> Item
    ensures { Cut body.now at result }
{
    if body.len() <= at {
        return Item::End;
    }
    let read = digits(body, at, 5);
    let tag = read.value as u32;
    let mark = at + read.count;
    let end = value_end(body, mark);
    let next = end + 1;
    let whole = Item::Malformed {
        start: at,
        end,
        next,
    };
    if mark == at || mark == end || body[mark] != b'=' {
        return whole;
    }
    if body[at] == b'0' {
        return whole;
    }
    let start = mark + 1;
    Item::Field {
        tag,
        start,
        end,
        next,
    }
}

// Whether bytes begin with `35=`, as every body does.
pub fn begins_with_type(b: &[u8]) -> bool
    ensures { result ≡ starts (fix "35=") b.now }
{
    matches!(b, [b'3', b'5', b'=', ..])
}

// 5 to 2,048 bytes that begin `35=` and end with `|`.
#[tactic(auto, unfolding(crate::specs::Field::is_body))]
pub fn is_body(b: &[u8]) -> bool
    ensures { result ≡ is_body b.now }
{
    let n = b.len();
    5 <= n && n <= 2_048 && begins_with_type(b) && b[n - 1] == 1
}
