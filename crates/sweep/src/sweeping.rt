// The sweep goes from candidate to candidate. Its state is small and is passed by value; the tally and the ring's tables
// are lent beside it.
ghost use Rattle.std.specs.Prelude.{◌≡◌, length};
ghost use Rattle.windows.specs.Windows.{parts_of, whole_line};
ghost use Rattle.sweep.specs.Reads.{CanReadWindows, windows_by};
ghost use Rattle.sweep.specs.Sweeps.{can_sweep, CanSweep, IsSweptTo, IsSweptBy};

use crate::reading::read_window;
use crate::tables::RingTables;
use crate::verifying::verify;
use answers::LinePlace;
use findings::Finding;
use moves::MOST_PLACES;
use tally::{MOST_COUNTS, Tally};
use windows::LineParts;

// More looks than any sweep takes. As long as the looks so far are at most this, those of the next windows can be added
// without overflow.
const MOST_LOOKS: usize = 1 << 62;

// Where a sweep stands: the start of the window to be read next, the last verified start if there is one, the looks so
// far.
#[derive(Clone, Copy)]
pub struct Sweep {
    pub start: LinePlace,
    pub last: Option<LinePlace>,
    pub looks: usize,
}

// The answer of `sweep_on`, with the sweep after it: no candidate any more, because no window fits in the line (or the
// sweep cannot go on: `can_sweep`); a candidate that is no finding; a candidate that is a finding.
#[derive(Clone, Copy)]
pub enum Swept {
    Ended(Sweep),
    NoFinding(Sweep),
    Found(Sweep, Finding),
}

// How far windows were read: the candidate's start, the looks of all windows up to and including the candidate, and the
// start of the window after it. If there is no candidate, there is no such window, and `start` is where the next window
// would start; none fits in the line there.
#[derive(Clone, Copy)]
pub struct WindowsRead {
    pub start: LinePlace,
    pub looks: usize,
    pub next: Option<LinePlace>,
}

// Rules 1 to 3, window after window, to the next candidate. The next window starts past the edge at which reading
// stopped: at break k + 1 every start up to there differs in more than k places, and at a mark no place up to there is a
// start. Most windows are stopped after a few reads, so nothing else is done between them.
fn read_windows<'a>(
    tables: RingTables<'a>,
    parts: LineParts<'a>,
    k: usize,
    from: LinePlace,
) -> WindowsRead
    requires { CanReadWindows (length tables.ring.now) (length (whole_line (length tables.ring.now) (parts_of parts))) from.0 }
    ensures { result ≡ windows_by tables.entry.ring.now tables.entry.vectors.now (parts_of parts.entry) k from.0 }
{
    let m = tables.ring.len();
    let mut i = from.0;
    let mut looks: usize = 0;
    // A turn goes on past the edge at which reading stopped, so this is no `for`.
    loop {
        // Whether a window fits is asked once, by `window`: it returns an empty part if none does.
        let edges = parts.window(LinePlace(i), m);
        if edges.is_empty() {
            return WindowsRead {
                start: LinePlace(i),
                looks,
                next: None,
            };
        }
        let read = read_window(edges, tables.vectors, k);
        looks += read.looks;
        match read.stopped_at {
            None => {
                return WindowsRead {
                    start: LinePlace(i),
                    looks,
                    next: Some(LinePlace(i + 1)),
                };
            }
            Some(left) => i += left + 1,
        }
    }
}

// Sweeps to the next candidate and verifies it (rule 4).
fn to_candidate<'a>(
    at: Sweep,
    tables: RingTables<'a>,
    parts: LineParts<'a>,
    k: usize,
    tally: &mut Tally,
) -> Swept
    requires { CanSweep (length tables.ring.now) (length (whole_line (length tables.ring.now) (parts_of parts))) at.start.0 at.looks }
    ensures { IsSweptTo tables.entry.ring.now tables.entry.doubled.now tables.entry.vectors.now (parts_of parts.entry) k at tally.old.counts tally.new.counts result }
{
    let last = at.last;
    let read = read_windows(tables, parts, k, at.start);
    let start = read.start;
    let looks = at.looks + read.looks;
    let Some(after) = read.next else {
        return Swept::Ended(Sweep { start, last, looks });
    };
    let verified = verify(tally, tables, parts, start, last);
    let next = Sweep {
        start: after,
        last: Some(start),
        looks: looks + verified.looks,
    };
    let least = verified.least;
    if k < least {
        return Swept::NoFinding(next);
    }
    Swept::Found(next, tally.finding_at(tables.ring.len(), start, least))
}

// Whether a sweep can go on from `start` with `taken` looks so far: m is 1 to 256, n is below 2^32, the start is at most
// n + 1, and the looks are at most 2^62.
#[tactic(auto, unfolding(crate::specs::Sweeps::can_sweep))]
fn can_sweep(m: usize, n: usize, start: LinePlace, taken: usize) -> bool
    ensures { result ≡ can_sweep m n start.0 taken }
{
    0 < m && m <= MOST_COUNTS && n < MOST_PLACES && start.0 <= n + 1 && taken <= MOST_LOOKS
}

// Sweeps to the next candidate, on every input. A sweep that cannot go on ends where it is, and no count changes.
pub fn sweep_on<'a>(
    at: Sweep,
    tables: RingTables<'a>,
    parts: LineParts<'a>,
    k: usize,
    tally: &mut Tally,
) -> Swept
    ensures { IsSweptBy tables.entry.ring.now tables.entry.doubled.now tables.entry.vectors.now (parts_of parts.entry) k at tally.old.counts tally.new.counts result }
{
    let m = tables.ring.len();
    if !can_sweep(m, parts.whole_length(m), at.start, at.looks) {
        return Swept::Ended(at);
    }
    to_candidate(at, tables, parts, k, tally)
}
