// Whether a value can be written: the dictionary's tests of its bytes.
ghost use Rattle.std.specs.Prelude.{◌≡◌, not};
ghost use Rattle.kinds.specs.Judged.{meaning};
ghost use Rattle.message.specs.code.Writable.{unwritten};

use kinds::{Kind, judge};
use octets::has;

// Whether the dictionary takes a value of a kind, and it can be written.
pub fn is_fit(kind: Kind, v: &[u8]) -> bool
    ensures { result ≡ not (unwritten (meaning kind) v.now) }
{
    if v.is_empty() {
        return false;
    }
    if has(v, 1) {
        return false;
    }
    judge(kind, v).is_ok()
}
