// The call that writes a message from its values.
ghost use Rattle.gateway.specs.Calls.{WriteOut};

use border::values_of;

// One administrative message from its values, at the front of a buffer; refusal 8 or 9, with the buffer as it was.
#[unsafe(no_mangle)]
pub extern "C" fn fixgw_write(
    code: &[u8],
    values: &[u64; 63],
    text: &[u8],
    buf: &mut [u8],
    out: &mut [u64; 1],
) -> u32
    ensures { WriteOut code.now values.now text.now buf.old result out.new buf.new }
{
    match writer::write(code, &values_of(values), text, buf) {
        Ok(len) => {
            *out = [len as u64];
            0
        }
        Err(e) => {
            *out = [0];
            e as u32
        }
    }
}
