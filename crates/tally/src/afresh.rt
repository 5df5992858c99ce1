// Rule 5: the tally counted afresh, m·m looks.
ghost use Rattle.std.specs.Prelude.{◌≡◌, ℕ, ◌+◌, ◌*◌, ◌<◌, ◌≤◌, length, get_or};
ghost use Rattle.lists.specs.ByPlace.{StoredFirst};
ghost use Rattle.tally.specs.Counts.{last_count, last_part_count, can_count, CanCount, IsDoubled, run_counted, CanCountOn, IsCountedOn, IsPartEnd, CanAddPart, IsCountedAfresh, IsCounted};

use crate::counts::{MOST_COUNTS, Tally, differing, least_of};
use crate::marks::past_mark;
use answers::{LinePlace, RingPlace, to_ring};

// Room for the longest ring twice.
pub const DOUBLED: usize = 2 * MOST_COUNTS;

// The number of window edges in a part. They are counted in eight bits, so there are at most 255. It is a multiple of
// four, so that only the window's last edges are counted one by one.
const PART_EDGES: usize = 128;

// Writes the ring twice, end to end, whatever the array held before: rotation r is its m edges from place r on. For a
// ring of more than 256 edges it writes zeros only. The array is lent: returned by value it would cost the caller two
// copies on the stack.
pub fn double(ring: &[u8], doubled: &mut [u8; DOUBLED])
    ensures { IsDoubled ring.now doubled.new }
{
    *doubled = [0u8; DOUBLED];
    let m = ring.len();
    if MOST_COUNTS < m {
        return;
    }
    doubled[..m].copy_from_slice(ring);
    doubled[m..2 * m].copy_from_slice(ring);
}

// Compares EDGES neighbouring window edges with every rotation's edges over them and counts the differences, in the counts
// of a part. `place` is the ring place that rotation 0 has over the first; over the one at e rotation r has the doubled
// ring's edge at place + e + r. The comparisons of a rotation are added up first, so each count is read and written once
// for EDGES edges. Their number is a const parameter, so that the compiler writes the inner loop out. Returns the
// EDGES·m looks.
fn compare_run<const EDGES: usize>(
    part: &mut [u8; MOST_COUNTS],
    doubled: &[u8],
    m: usize,
    place: RingPlace,
    edges: &[u8],
) -> usize
    requires { CanCount m (length part.old) (length doubled.now) × (place.0 + EDGES ≤ m) × (EDGES ≡ length edges.now) × ((r : ℕ) → r < m → get_or part.old r 0 + EDGES ≤ last_part_count) }
    ensures { StoredFirst m (run_counted doubled.now part.old place.0 edges.now EDGES) part.old part.new × (result ≡ m * EDGES) }
{
    let first = place.0;
    let mut looks: usize = 0;
    for r in 0..m {
        let mut differ: u8 = 0;
        for e in 0..EDGES {
            differ += differing(edges[e], doubled[first + e + r]);
            looks += 1; // one look
        }
        part[r] += differ;
    }
    looks
}

// The result of `count_run`, `count_some` and `count_part`: how many edges were counted, the looks, and the place just
// past the last mark up to there.
#[derive(Clone, Copy)]
pub struct EdgesCounted {
    pub edges: usize,
    pub looks: usize,
    pub past: usize,
}

// Counts the next EDGES edges of a window, from place q on. The window is read as a line of its own, from place 0 on;
// `to_ring` gives the ring place that rotation 0 has over its edge at q, outside the loop over the rotations. Whether an
// edge is a mark is asked as it is counted; `past` is the place just past the last mark before q.
fn count_run<const EDGES: usize>(
    part: &mut [u8; MOST_COUNTS],
    doubled: &[u8],
    window: &[u8],
    q: usize,
    past: usize,
) -> EdgesCounted
    requires { CanCountOn doubled.now window.now part.old last_part_count q (q + EDGES) past }
    ensures { IsCountedOn doubled.now window.now q (q + EDGES) part.old part.new result }
{
    let m = window.len();
    let place = to_ring(LinePlace(q), LinePlace(0), RingPlace(0), m);
    let edges = &window[q..q + EDGES];
    let mut past_here = past;
    for (e, edge) in edges.iter().enumerate() {
        past_here = past_mark(*edge, past_here, q + e + 1);
    }
    EdgesCounted {
        edges: EDGES,
        looks: compare_run::<EDGES>(part, doubled, m, place, edges),
        past: past_here,
    }
}

// Counts the next edges of a window, from place q on: four, or one if fewer than four are left before `end`, where the
// part ends.
fn count_some(
    part: &mut [u8; MOST_COUNTS],
    doubled: &[u8],
    window: &[u8],
    q: usize,
    end: usize,
    past: usize,
) -> EdgesCounted
    requires { CanCountOn doubled.now window.now part.old last_part_count q end past }
    ensures { IsCountedOn doubled.now window.now q end part.old part.new result }
{
    if end - q < 4 {
        count_run::<1>(part, doubled, window, q, past)
    } else {
        count_run::<4>(part, doubled, window, q, past)
    }
}

// Where the part that begins at `from` ends, in a window of m edges.
fn part_end(from: usize, m: usize) -> usize
    requires { from < m }
    ensures { IsPartEnd from m result }
{
    from + PART_EDGES.min(m - from)
}

// Adds a part's counts to the counts of the parts before it, of as many rotations.
fn add_part(counts: &mut [u16], part: &[u8])
    requires { CanAddPart counts.old part.now }
    ensures { StoredFirst (length part.now) (λ r. get_or counts.old r 0 + get_or part.now r 0) counts.old counts.new }
{
    for r in 0..part.len() {
        counts[r] += u16::from(part[r]);
    }
}

// Counts the part of a window that begins at `from`. Its counts have eight bits, as a comparison has, so that the
// compiler compares and adds sixteen at once; then they are added to the counts of sixteen bits. `past` is the place just
// past the last mark before `from`.
fn count_part(
    counts: &mut [u16; MOST_COUNTS],
    doubled: &[u8],
    window: &[u8],
    from: usize,
    past: usize,
) -> EdgesCounted
    requires { CanCountOn doubled.now window.now counts.old last_count from (length window.now) past }
    ensures { IsCountedOn doubled.now window.now from (length window.now) counts.old counts.new result }
{
    let m = window.len();
    let end = part_end(from, m);
    let mut part = [0u8; MOST_COUNTS];
    let mut looks: usize = 0;
    let mut past_here = past;
    let mut q = from;
    // A turn goes on by as many edges as it counted, four or one, so this is no `for`.
    while q < end {
        let counted = count_some(&mut part, doubled, window, q, end, past_here);
        looks += counted.looks;
        past_here = counted.past;
        q += counted.edges;
    }
    add_part(&mut counts[..m], &part[..m]);
    let edges = end - from;
    EdgesCounted {
        edges,
        looks,
        past: past_here,
    }
}

// The result of a fresh count: the least of the counts, the looks, and the place just past the last mark of the window,
// counted from its own place 0; 0 if it holds none.
#[derive(Clone, Copy)]
pub struct Fresh {
    pub least: usize,
    pub looks: usize,
    pub past: usize,
}

// Counts every rotation afresh: m edges, each against m ring edges, part after part.
fn count_edges(counts: &mut [u16; MOST_COUNTS], doubled: &[u8], window: &[u8]) -> Fresh
    requires { CanCount (length window.now) (length counts.old) (length doubled.now) }
    ensures { IsCountedAfresh doubled.now window.now counts.old counts.new result }
{
    let m = window.len();
    counts[..m].fill(0);
    let mut looks: usize = 0;
    let mut past: usize = 0;
    let mut q = 0;
    // A turn goes on by the edges of a part, so this is no `for`.
    while q < m {
        let counted = count_part(counts, doubled, window, q, past);
        looks += counted.looks;
        past = counted.past;
        q += counted.edges;
    }
    let least = usize::from(least_of(&counts[..m]));
    Fresh { least, looks, past }
}

// Whether a window of m edges can be counted: m is 1 to 256, `room` counts are enough for m rotations, and `long` edges
// of the doubled ring are enough for 2·m. There are always 256 counts; their number is a parameter because a contract
// does not know the length of a lent array.
#[tactic(auto, unfolding(crate::specs::Counts::can_count))]
fn can_count(m: usize, room: usize, long: usize) -> bool
    ensures { result ≡ can_count m room long }
{
    0 < m && m <= MOST_COUNTS && m <= room && 2 * m <= long
}

impl Tally {
    // Counts the tally of a window: its edges are compared with those of every rotation. If the window cannot be
    // counted, no count changes and no look is taken.
    pub fn count_afresh(&mut self, doubled: &[u8], window: &[u8]) -> Fresh
        ensures { IsCounted doubled.now window.now self.old.counts self.new.counts result }
    {
        let all = &self.counts[..];
        if !can_count(window.len(), all.len(), doubled.len()) {
            return Fresh {
                least: 0,
                looks: 0,
                past: 0,
            };
        }
        count_edges(&mut self.counts, doubled, window)
    }
}
