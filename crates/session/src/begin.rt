// The record that a new session begins with.
ghost use Rattle.std.specs.Prelude.{◌≡◌, ◌≤◌, length};
ghost use Rattle.moves.specs.Session.{turned, fresh};
ghost use Rattle.session.specs.Held.{record_of, padded};

use gap::Gap;
use moves::{Record, Replay, Status};

// A CompID in eleven bytes, with zeros behind it.
fn in_eleven(c: &[u8]) -> [u8; 11]
    requires { length c.now ≤ 11 }
    ensures { result ≡ padded c.now }
{
    let mut a = [0u8; 11];
    a[..c.len()].copy_from_slice(c);
    a
}

// As new between two CompIDs, with a status.
pub fn begun(ours: &[u8], peer: &[u8], status: Status) -> Record
    requires { (length ours.now ≤ 11) × (length peer.now ≤ 11) }
    ensures { result ≡ record_of (turned status (fresh ours.now peer.now)) }
{
    Record {
        ours: in_eleven(ours),
        oursLen: ours.len(),
        peer: in_eleven(peer),
        peerLen: peer.len(),
        status,
        expected: 1,
        next: 1,
        heartbeat: 30,
        sent: 0,
        replay: Replay::none(),
        gap: Gap::none(),
    }
}
