// Rule 5: "the tally of one count per rotation is kept and moved along the line."
ghost use Rattle.std.specs.Prelude.{◌≡◌};
ghost use Rattle.windows.specs.Windows.{parts_of};
ghost use Rattle.moves.specs.Moves.{can_move, IsMoved};

use crate::steps::{Reached, move_along};
use answers::LinePlace;
use tally::{MOST_COUNTS, Tally};
use windows::LineParts;

// 2^32: a whole line that counts are moved along has at most this many places.
pub const MOST_PLACES: usize = 1 << 32;

// Whether the tally of a ring of m edges can be moved `steps` steps: m is 1 to 256, there is a count for each rotation,
// n is at most 2^32, and the window after the last step fits in the line. Places are subtracted and compared, never
// added, so nothing overflows. There are always 256 counts; their number is a parameter because a contract does not
// know the length of a lent array.
#[tactic(auto, unfolding(crate::specs::Moves::can_move))]
fn can_move(m: usize, room: usize, n: usize, from: LinePlace, steps: usize) -> bool
    ensures { result ≡ can_move m room n from.0 steps }
{
    0 < m
        && m <= MOST_COUNTS
        && m <= room
        && n <= MOST_PLACES
        && m <= n
        && from.0 <= n - m
        && steps <= n - m - from.0
}

// Moves the counts of a search along the line by at most `steps` steps; stops at the first start reached whose least
// count is below `below`. If they cannot be moved, they stay as they are, and `from` and zeros are returned: the start
// where they are, no step and no look. (An Option would be no plainer: the callers of the one caller, `move_tally`, move
// only what can be moved, and their case for None would never come.)
fn move_counts<'a>(
    counts: &mut [u16; MOST_COUNTS],
    ring: &[u8],
    parts: LineParts<'a>,
    from: LinePlace,
    steps: usize,
    below: usize,
) -> Reached
    ensures { IsMoved ring.now (parts_of parts.entry) from.0 steps below counts.old counts.new result }
{
    let all = &counts[..];
    let m = ring.len();
    if !can_move(m, all.len(), parts.whole_length(m), from, steps) {
        return Reached {
            start: from,
            least: 0,
            looks: 0,
            past: 0,
        };
    }
    move_along(counts, ring, parts, from, steps, below)
}

// Moves a lent tally along the line, as `move_counts` moves its counts. (Not one function with `move_counts`: document 01
// asks for one thin stepping function that is lent the tally, above a covered function on the counts.)
pub fn move_tally<'a>(
    tally: &mut Tally,
    ring: &[u8],
    parts: LineParts<'a>,
    from: LinePlace,
    steps: usize,
    below: usize,
) -> Reached
    ensures { IsMoved ring.now (parts_of parts.entry) from.0 steps below tally.old.counts tally.new.counts result }
{
    move_counts(&mut tally.counts, ring, parts, from, steps, below)
}
