// The words of the writer's values.
ghost use Rattle.std.specs.Prelude.{◌≡◌};
ghost use Rattle.border.specs.Values.{values_of};

use writer::{Given, Values};

// Three words for each tag of the writer, in its order: a value is made of three words at its place, so the loop goes by the place.
pub fn values_of(words: &[u64; 63]) -> Values
    ensures { result ≡ values_of words.now }
{
    let mut values = [None; 21];
    for k in 0..21 {
        let given = Given {
            a: words[3 * k + 1],
            b: words[3 * k + 2],
        };
        values[k] = (words[3 * k] != 0).then_some(given);
    }
    values
}
