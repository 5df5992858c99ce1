// Rule 5: the tally is kept, and moved along the line from one verified start to the next.
ghost use Rattle.std.specs.Prelude.{◌≤◌};
ghost use Rattle.findings.specs.Limits.{most_places};
ghost use Rattle.windows.specs.Windows.{parts_of};
ghost use Rattle.sweep.specs.Sweeps.{IsCountedTo, IsTalliedBy};

use crate::tables::RingTables;
use answers::LinePlace;
use moves::move_tally;
use tally::{Least, Tally};
use windows::LineParts;

// Counts the window at a start afresh. Which of its edges are marks is of no use here: a candidate's window holds none.
fn verify_afresh<'a>(
    tally: &mut Tally,
    doubled: &[u8],
    parts: LineParts<'a>,
    start: LinePlace,
    m: usize,
) -> Least
    ensures { IsCountedTo m doubled.now (parts_of parts.entry) start.0 tally.old.counts tally.new.counts result }
{
    let fresh = tally.count_afresh(doubled, parts.window(start, m));
    Least {
        least: fresh.least,
        looks: fresh.looks,
    }
}

// Verifies a start. Rule 5: "With no earlier tally, or if the new start is s beyond the last verified one and 2·s > m,
// it is counted afresh: m·m looks. Otherwise it moves s steps". The rules never go back; a start that is not beyond the
// last verified one is counted afresh here.
pub fn verify<'a>(
    tally: &mut Tally,
    tables: RingTables<'a>,
    parts: LineParts<'a>,
    start: LinePlace,
    last: Option<LinePlace>,
) -> Least
    requires { start.0 ≤ most_places }
    ensures { IsTalliedBy tables.entry.ring.now tables.entry.doubled.now (parts_of parts.entry) start.0 last tally.old.counts tally.new.counts result }
{
    let m = tables.ring.len();
    match last {
        Some(from) if from.0 < start.0 && 2 * (start.0 - from.0) <= m => {
            // The bound is 0, and no least count is below 0, so the tally moves all s steps.
            let reached = move_tally(tally, tables.ring, parts, from, start.0 - from.0, 0);
            Least {
                least: reached.least,
                looks: reached.looks,
            }
        }
        _ => verify_afresh(tally, tables.doubled, parts, start, m),
    }
}
