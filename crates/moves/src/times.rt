// The time that a body's first field of a tag writes.
ghost use Rattle.std.specs.Prelude.{◌≡◌, true};
ghost use Rattle.octets.specs.Bytes.{within};
ghost use Rattle.fields.specs.Field.{first_field};
ghost use Rattle.moves.specs.code.Reads.{time_in};

use calendar::{Moment, read_time};
use fields::{Span, first_field};

// Why a field gives no moment: there is no such field, or it breaks its form or the calendar.
#[derive(Clone, Copy, PartialEq, Eq, Debug)]
pub enum NoTime {
    Missing,
    Bad,
}

pub fn time_in(body: &[u8], tag: u32) -> Result<Moment, NoTime>
    requires { within 1 99_999 tag ≡ true }
    ensures { result ≡ time_in (first_field tag body.now) }
{
    let Span { start, end } = first_field(body, tag).ok_or(NoTime::Missing)?;
    read_time(&body[start..end]).ok_or(NoTime::Bad)
}
