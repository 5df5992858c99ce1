// Rows 1 to 4 of document 01's table, the refusals that lengths, k and room decide, and row 12 of document 02, which the
// ring's edges decide.
ghost use Rattle.findings.specs.Admitting.{ring_rows, limit_rows, admit_rows, IsVerdict};

use crate::marks::holds_mark;
use answers::Refusal;

// "Ring: m edges, 1 to 256."
pub const MOST_RING: usize = 256;
// "Line: n edges, 0 to 65,536."
pub const MOST_LINE: usize = 65536;
// "a finding becomes four words" (document 02, ticket 1)
pub const WORDS_EACH: usize = 4;

// Tests rows 1, 12, 2, with which every search begins, in this order and returns the refusal of the first that is given.
pub fn admit_ring(ring: &[u8], k: usize) -> Result<(), Refusal>
    ensures { IsVerdict (ring_rows ring.now k) result }
{
    let m = ring.len();
    if m == 0 || MOST_RING < m {
        return Err(Refusal::Ring);
    }
    // Row 1 is ruled out, so at most 256 edges are read.
    if holds_mark(ring) {
        return Err(Refusal::RingMark);
    }
    if m <= k {
        return Err(Refusal::Allowance);
    }
    Ok(())
}

// Tests rows 1, 12, 2, 3 in this order and returns the refusal of the first that is given. n is the line's length.
pub fn within_limits(ring: &[u8], k: usize, n: usize) -> Result<(), Refusal>
    ensures { IsVerdict (limit_rows ring.now k n) result }
{
    admit_ring(ring, k)?;
    if MOST_LINE < n {
        return Err(Refusal::Line);
    }
    Ok(())
}

// Tests rows 1, 12, 2, 3, 4 in this order and returns the refusal of the first that is given. n is the line's length,
// `room` the number of words lent for findings.
pub fn admit(ring: &[u8], k: usize, n: usize, room: usize) -> Result<(), Refusal>
    ensures { IsVerdict (admit_rows ring.now k n room) result }
{
    within_limits(ring, k, n)?;
    let m = ring.len();
    if m <= n && room < WORDS_EACH * (n - m + 1) {
        return Err(Refusal::FindingsRoom);
    }
    Ok(())
}
