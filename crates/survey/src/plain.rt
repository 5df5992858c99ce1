// The plain survey: every start is verified, the first afresh and each next by one step.
ghost use Rattle.std.specs.Prelude.{◌≡◌, length};
ghost use Rattle.windows.specs.Windows.{parts_of, whole_line};
ghost use Rattle.survey.specs.Survey.{is_found, CanVerifyOn, IsVerifiedOn, CanSurveyLine, CanSurvey, LineSurveyed, IsSurveyed};

use answers::{LinePlace, Refusal};
use findings::{SearchCounts, admit, put_finding};
use moves::{Reached, move_tally};
use tally::{DOUBLED, MOST_COUNTS, Tally, double};
use windows::LineParts;

// Counts place 0 afresh; for a later place it moves the tally of the place before, a step for each, to the next place
// whose least count is at most k or to the last window. Rule 5's test 2·s > m is not made here: "each next by one step, at
// m = 1 too". (The ring and its double are no struct here: the first place uses the double alone, a later one the ring.)
fn verify_on<'a>(
    tally: &mut Tally,
    ring: &[u8],
    doubled: &[u8],
    parts: LineParts<'a>,
    k: usize,
    start: LinePlace,
) -> Reached
    requires { CanVerifyOn ring.now doubled.now (parts_of parts) k start.0 tally.old.counts }
    ensures { IsVerifiedOn ring.now (whole_line (length ring.now) (parts_of parts.entry)) k start.0 tally.new.counts result }
{
    let m = ring.len();
    if start.0 == 0 {
        let first = tally.count_afresh(doubled, parts.window(start, m));
        Reached {
            start,
            least: first.least,
            looks: first.looks,
            past: first.past, // at place 0 the window's places are the line's
        }
    } else {
        let from = start.0 - 1;
        move_tally(
            tally,
            ring,
            parts,
            LinePlace(from),
            parts.whole_length(m) - m - from,
            k + 1,
        )
    }
}

// Whether a verified place is a finding: its least count is at most k, and the place just past the last mark seen is not
// beyond it, so its window holds no mark.
fn is_finding(least: usize, k: usize, past: usize, start: LinePlace) -> bool
    ensures { result ≡ is_found k least past start.0 }
{
    least <= k && past <= start.0
}

// Surveys from one place with a least count of at most k to the next, while a window fits in the line. The tally goes
// through windows that hold a mark as through all others. A mark only counts as a differing edge there, so such a
// window may have a least count of at most k; `is_finding` keeps it out.
fn survey_starts<'a>(
    ring: &[u8],
    doubled: &[u8],
    parts: LineParts<'a>,
    k: usize,
    tally: &mut Tally,
    words: &mut [u32],
) -> SearchCounts
    requires { CanSurvey ring.now doubled.now (parts_of parts) k tally.old.counts words.old }
    ensures { LineSurveyed ring.now (whole_line (length ring.now) (parts_of parts.entry)) k words.old result.found result.looks words.new }
{
    let m = ring.len();
    let n = parts.whole_length(m);
    let mut found: usize = 0;
    let mut looks: usize = 0;
    let mut past: usize = 0;
    let mut i = 0;
    // A turn goes on past the place that it reached, so this is no `for`.
    while i + m <= n {
        let reached = verify_on(tally, ring, doubled, parts, k, LinePlace(i));
        looks += reached.looks;
        past = past.max(reached.past);
        let start = reached.start;
        i = start.0 + 1;
        let least = reached.least;
        if is_finding(least, k, past, start) {
            put_finding(words, found, tally.finding_at(m, start, least));
            found += 1;
        }
    }
    SearchCounts { found, looks }
}

// Makes the ring's double and the tally, once for each call, and surveys the line. Making them reads no line edge.
pub fn survey_line<'a>(
    ring: &[u8],
    parts: LineParts<'a>,
    k: usize,
    words: &mut [u32],
) -> SearchCounts
    requires { CanSurveyLine ring.now (parts_of parts) k words.old }
    ensures { LineSurveyed ring.now (whole_line (length ring.now) (parts_of parts.entry)) k words.old result.found result.looks words.new }
{
    let mut doubled = [0u8; DOUBLED];
    double(ring, &mut doubled);
    let mut tally = Tally {
        counts: [0; MOST_COUNTS],
    };
    survey_starts(ring, &doubled, parts, k, &mut tally, words)
}

// The plain survey of an open line: no window crosses its end, so an empty part of it is lent as the join area. Every
// start is verified, also those that a quick scan would skip. So is every place whose window holds a mark, because its
// tally leads to the next one's.
pub fn survey(
    ring: &[u8],
    line: &[u8],
    k: usize,
    words: &mut [u32],
) -> Result<SearchCounts, Refusal>
    ensures { IsSurveyed ring.now line.now k words.old result words.new }
{
    admit(ring, k, line.len(), words.len())?;
    let none = &line[..0];
    Ok(survey_line(ring, LineParts { line, join: none }, k, words))
}
