// Rows 1, 12, 2, 3, 4, 10 as they read for a closed line (document 02, ticket 3).
ghost use Rattle.findings.specs.Admitting.{IsVerdict};
ghost use Rattle.findings.specs.ClosedRows.{closed_rows};

use crate::admitting::{WORDS_EACH, within_limits};
use answers::Refusal;

// Tests rows 1, 12, 2, 3, 4, 10 in this order and returns the refusal of the first that is given. n is the line's length,
// `room` the number of words lent for findings, `joins` the number of bytes lent for the join.
pub fn admit_closed(
    ring: &[u8],
    k: usize,
    n: usize,
    room: usize,
    joins: usize,
) -> Result<(), Refusal>
    ensures { IsVerdict (closed_rows ring.now k n room joins) result }
{
    within_limits(ring, k, n)?;
    let m = ring.len();
    if n < m {
        return Ok(());
    }
    // Every place of a closed line can be a start.
    if room < WORDS_EACH * n {
        return Err(Refusal::FindingsRoom);
    }
    if joins < 2 * m - 2 {
        return Err(Refusal::OutputRoom);
    }
    Ok(())
}
