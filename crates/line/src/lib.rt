// A line buffer that the host lends: a piece is put behind the pending bytes, and bytes are dropped from the front.
#![tactic(auto)]

ghost use Rattle.line.specs.Line.{Puts, Drops};

// Puts a piece behind the pending bytes, as much of it as fits, and answers how much that was. The bytes behind it stay as they are. Byte by byte: lines
// come in pieces of a byte or some, for which `copy_from_slice` is a call, and a frame that comes byte by byte is one part in ten dearer.
pub fn put_piece(buf: &mut [u8], held: usize, piece: &[u8]) -> usize
    ensures { Puts buf.old held piece.now result buf.new }
{
    let len = buf.len();
    if len <= held {
        return 0;
    }
    let n = piece.len().min(len - held);
    for i in 0..n {
        buf[held + i] = piece[i];
    }
    n
}

// Drops n bytes from the front of the pending ones and answers how many are then pending. The bytes behind these stay as they are.
pub fn drop_front(buf: &mut [u8], held: usize, n: usize) -> usize
    ensures { Drops buf.old held n result buf.new }
{
    let h = held.min(buf.len());
    if h <= n {
        return 0;
    }
    if n == 0 {
        return h;
    }
    buf.copy_within(n..h, 0);
    h - n
}
