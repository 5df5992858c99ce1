// Rows 1, 12, 2, 14, 3, 4 as they read for the two-way scan (document 02, ticket 6).
ghost use Rattle.findings.specs.Admitting.{IsVerdict};
ghost use Rattle.two_way.specs.Admitting.{two_way_rows, SaysFirstNoEdge};

use answers::Refusal;
use findings::{MOST_LINE, WORDS_EACH, admit_ring};

// "codes 248 to 255 aren't edges": the codes below are.
const EDGE_CODES: u8 = 248;

// Forward and backward.
const PASSES: usize = 2;

// The first place of the ring that has no edge code, if one has none.
fn first_no_edge(ring: &[u8]) -> Option<usize>
    ensures { SaysFirstNoEdge ring.now result }
{
    ring.iter().position(|code| EDGE_CODES <= *code)
}

// Tests rows 1, 12, 2, 14, 3, 4 in this order and returns the refusal of the first that is given. n is the line's length,
// `room` the number of words lent for findings.
pub fn admit_two_way(ring: &[u8], k: usize, n: usize, room: usize) -> Result<(), Refusal>
    ensures { IsVerdict (two_way_rows ring.now k n room) result }
{
    admit_ring(ring, k)?;
    if let Some(place) = first_no_edge(ring) {
        return Err(Refusal::RingCode(place));
    }
    if MOST_LINE < n {
        return Err(Refusal::Line);
    }
    // Each pass may find as many as there are windows.
    let m = ring.len();
    if m <= n && room < PASSES * WORDS_EACH * (n - m + 1) {
        return Err(Refusal::FindingsRoom);
    }
    Ok(())
}
