// Counts of differing edges, one for each rotation. A tally's count is at most 256, one more than eight bits hold, so
// it is a u16.
ghost use Rattle.std.specs.Prelude.{◌≡◌, ◌<◌, ◌≤◌, eqb, length};
ghost use Rattle.tally.specs.Counts.{most_counts, IsComparison, IsFindingAt, IsLeast, IsLowestWith, IsTies};

use answers::{LinePlace, RingPlace};
use findings::{Finding, MOST_RING};

// One count for each rotation of the longest ring.
pub const MOST_COUNTS: usize = MOST_RING;

// The tally of rule 5: one count for each rotation. A ring of m edges has its counts at the first m places. It is lent
// from the top of a search down to the one function that moves it, so that no copy of it is made.
#[derive(Clone, Copy)]
pub struct Tally {
    pub counts: [u16; MOST_COUNTS],
}

// The least of a start's counts, and the looks taken to compute them.
#[derive(Clone, Copy)]
pub struct Least {
    pub least: usize,
    pub looks: usize,
}

// One comparison: 1 if the two edges differ, else 0. It has the edges' own width, so that the compiler compares and adds
// sixteen at once; the sums over a part of a window are widened before they are added to the counts.
pub fn differing(a: u8, b: u8) -> u8
    ensures { IsComparison a b result }
{
    u8::from(a != b)
}

// The least of a ring's counts.
pub fn least_of(counts: &[u16]) -> u16
    requires { 0 < length counts.now }
    ensures { IsLeast (length counts.now) counts.now result }
{
    let mut least = counts[0];
    for count in &counts[1..] {
        least = least.min(*count);
    }
    least
}

// The lowest rotation whose count is `least`; the number of the counts if none has that count.
fn lowest_rotation(counts: &[u16], least: usize) -> RingPlace
    requires { length counts.now ≤ most_counts }
    ensures { IsLowestWith (length counts.now) counts.now least result.0 }
{
    let lowest = counts.iter().position(|count| usize::from(*count) == least);
    RingPlace(lowest.unwrap_or(counts.len()))
}

// "how many rotations reach the least distance" (document 02, ticket 1): how many of the rotations have the count
// `least`. Counts are compared in their own sixteen bits, because the compiler then compares eight of them at once. A
// `least` above 65,535 has no ties: no count is that large.
fn count_ties(counts: &[u16], least: usize) -> usize
    requires { length counts.now ≤ most_counts }
    ensures { IsTies (length counts.now) counts.now least result }
{
    let Ok(wanted) = u16::try_from(least) else {
        return 0;
    };
    let mut ties: u16 = 0;
    for count in counts {
        ties += u16::from(*count == wanted);
    }
    usize::from(ties)
}

impl Tally {
    // "It carries start, rotation, distance: the least distance, and the lowest r that reaches it", and how many reach
    // it: the finding at a start whose least count is `least`. Callers call it only for a start that is a finding, so
    // rotation and ties are sought only then. Both are read off the counts, so no line edge is read. An m above 256 is
    // taken as 256.
    pub fn finding_at(&self, m: usize, start: LinePlace, least: usize) -> Finding
        ensures { IsFindingAt m self.now.counts start least result }
    {
        let counts = &self.counts[..m.min(MOST_COUNTS)];
        Finding {
            start,
            rotation: lowest_rotation(counts, least),
            distance: least,
            ties: count_ties(counts, least),
        }
    }
}
