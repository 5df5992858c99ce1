// Rule 5: the tally moved along the line, each step 2·m looks. The count of rotation r is kept under the number r
// (specs/Tallied.antt of crates/tally), so a step renumbers the counts.
ghost use Rattle.std.specs.Prelude.{◌≡◌, length};
ghost use Rattle.meaning.specs.Looks.{step_looks};
ghost use Rattle.lists.specs.ByPlace.{StoredFirst};
ghost use Rattle.windows.specs.Windows.{parts_of, whole_line};
ghost use Rattle.tally.specs.Counts.{HasCounts, IsLeast};
ghost use Rattle.moves.specs.Moves.{changed_count, changed_at, IsStepped, CanMove, IsMovedOn};

use answers::LinePlace;
use tally::{Least, MOST_COUNTS, differing, past_mark};
use windows::LineParts;

// count − lost + won, mod 2^16: `lost` is 1 if the leaving edge differs, `won` is 1 if the entering edge does. Counts
// that are a tally never wrap; other counts may.
fn changed(count: u16, lost: u8, won: u8) -> u16
    ensures { result ≡ changed_count count lost won }
{
    count
        .wrapping_sub(u16::from(lost))
        .wrapping_add(u16::from(won))
}

// Compares the leaving and the entering edge with every ring edge and changes the counts. Rotation r has the ring's
// edge at place r over the leaving edge; at the next start the next rotation has the same edge over the entering edge.
// `to_ring` gives r for both (`leaving_meets`, `entering_meets` in proofs/EdgesMeetRing.antt), so no place is converted
// here.
fn change(counts: &mut [u16; MOST_COUNTS], ring: &[u8], leaving: u8, entering: u8) -> Least
    requires { HasCounts (length ring.now) (length counts.old) }
    ensures { StoredFirst (length ring.now) (changed_at ring.now leaving entering counts.old) counts.old counts.new
        × IsLeast (length ring.now) counts.new result.least
        × (result.looks ≡ step_looks (length ring.now)) }
{
    let mut least = u16::MAX; // no count is above it
    let mut looks: usize = 0;
    for (r, edge) in ring.iter().enumerate() {
        let lost = differing(leaving, *edge);
        looks += 1; // one look, at the leaving edge
        let won = differing(entering, *edge);
        looks += 1; // one look, at the entering edge
        let count = changed(counts[r], lost, won);
        counts[r] = count;
        least = least.min(count);
    }
    Least {
        least: usize::from(least),
        looks,
    }
}

// One step: the counts are changed, and then each is moved to the next rotation's number, and the last one to rotation
// 0. The least is found before this renumbering, which does not change it: it only moves the counts.
fn step(counts: &mut [u16; MOST_COUNTS], ring: &[u8], leaving: u8, entering: u8) -> Least
    requires { HasCounts (length ring.now) (length counts.old) }
    ensures { IsStepped ring.now leaving entering counts.old counts.new result }
{
    let least = change(counts, ring, leaving, entering);
    counts[..ring.len()].rotate_right(1);
    least
}

// The result of a move: the start reached, the least of its counts, the looks of all steps, and the place just past the
// last mark among the edges that entered; 0 if none of them is a mark. (No Option: it is the first place whose window can
// be free of these marks, and without a mark that is 0.)
#[derive(Clone, Copy)]
pub struct Reached {
    pub start: LinePlace,
    pub least: usize,
    pub looks: usize,
    pub past: usize,
}

// Moves the counts along the line: `steps` steps, or fewer if a start reached on the way has a least count below
// `below`. The leaving edge is the first of the window at i, the entering edge the last of the window at i + 1. Whether
// it is a mark is asked as it enters; the place just past it is where the window at i + 1 ends.
pub fn move_along<'a>(
    counts: &mut [u16; MOST_COUNTS],
    ring: &[u8],
    parts: LineParts<'a>,
    from: LinePlace,
    steps: usize,
    below: usize,
) -> Reached
    requires { CanMove (length ring.now) (length counts.old) (length (whole_line (length ring.now) (parts_of parts))) from.0 steps }
    ensures { IsMovedOn ring.now (parts_of parts.entry) from.0 steps below counts.old counts.new result }
{
    let m = ring.len();
    let mut reached = Reached {
        start: from,
        least: 0,
        looks: 0,
        past: 0,
    };
    for i in from.0..from.0 + steps {
        let here = parts.window(LinePlace(i), m);
        let next = parts.window(LinePlace(i + 1), m);
        let entering = next[m - 1];
        let stepped = step(counts, ring, here[0], entering);
        reached = Reached {
            start: LinePlace(i + 1),
            least: stepped.least,
            looks: reached.looks + stepped.looks,
            past: past_mark(entering, reached.past, i + 1 + m),
        };
        if reached.least < below {
            return reached;
        }
    }
    reached
}
