// The codes of a ring walked the other way round.
ghost use Rattle.reversal.specs.Reversing.{IsReversed};

use crate::codes::reversed_code;

// Room for the longest ring: "m edges, 1 to 256". (A number of its own: crates/findings, which has the limit of a ring,
// stands above this crate.)
pub const MOST_REVERSED: usize = 256;

// "Reversed, the edges come in opposite order". Of the lent places the first m get the reversed ring, and the others 0. A
// search refuses a ring of more than 256 edges itself, so none is refused here: of such a ring the first 256 reversed
// edges are written. They are stored by number: of an array lent to a `zip` a proof knows no value afterwards.
pub fn reverse(ring: &[u8], codes: &mut [u8; MOST_REVERSED])
    ensures { IsReversed ring.now codes.new }
{
    *codes = [0u8; MOST_REVERSED];
    for (q, edge) in ring.iter().rev().take(MOST_REVERSED).enumerate() {
        codes[q] = reversed_code(*edge);
    }
}

// The same by value. A search uses `reverse`, because the compiler keeps one more copy of a returned array.
pub fn reversed(ring: &[u8]) -> [u8; MOST_REVERSED]
    ensures { IsReversed ring.now result }
{
    let mut codes = [0u8; MOST_REVERSED];
    reverse(ring, &mut codes);
    codes
}
