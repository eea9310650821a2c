// The calls on the line: the frames in its bytes, the body of a frame, the lent buffer that holds what came.
ghost use Rattle.gateway.specs.Border.{ReadOut, PutOut, DropOut, BodyOut};

use border::refuse;
use frame::{Found, NoFrame};
use session::Refusal;

// One reading of the bytes: 0 with the bytes skipped and the frame's length, or refusal 1 with the bytes to drop.
#[unsafe(no_mangle)]
pub extern "C" fn fixgw_read(bytes: &[u8], out: &mut [u64; 2]) -> u32
    ensures { ReadOut bytes.now result out.new }
{
    match frame::reading_of(bytes) {
        Ok(Found { skip, len }) => {
            *out = [skip as u64, len as u64];
            0
        }
        Err(NoFrame { drop }) => {
            *out = [drop as u64, 0];
            1
        }
    }
}

// Where the body of a frame lies; refusal 10 for bytes that are not exactly one good frame.
#[unsafe(no_mangle)]
pub extern "C" fn fixgw_body(frame: &[u8], out: &mut [u64; 2]) -> u32
    ensures { BodyOut frame.now result out.new }
{
    let Some(body) = frame::body_of(frame) else {
        return refuse(out, Refusal::NotOneFrame);
    };
    let n = body.len();
    let start = frame.len() - (n + 7);
    *out = [start as u64, n as u64];
    0
}

// Puts a piece behind the first `held` bytes of a lent buffer, as much of it as fits, and answers how much that was.
#[unsafe(no_mangle)]
pub extern "C" fn fixgw_put(buf: &mut [u8], held: usize, piece: &[u8]) -> usize
    ensures { PutOut buf.old held piece.now result buf.new }
{
    line::put_piece(buf, held, piece)
}

// Drops n bytes from the front of the held ones, and answers how many are held then.
#[unsafe(no_mangle)]
pub extern "C" fn fixgw_drop(buf: &mut [u8], held: usize, n: usize) -> usize
    ensures { DropOut buf.old held n result buf.new }
{
    line::drop_front(buf, held, n)
}
