// The plain survey of a line that is closed as well (document 02, ticket 3).
ghost use Rattle.survey.specs.ClosedSurvey.{IsClosedSurveyed};

use crate::plain::survey_line;
use answers::Refusal;
use findings::{SearchCounts, admit_closed};
use windows::{LineParts, fill_join};

// The plain survey in closed mode: "edges continue from the beginning after the last". The join area is written once no
// refusal is left to be given. Only its first 2·m − 2 bytes, or none for n < m, are lent to the survey.
// (Not one function with the open survey: that has no join area, and row 4 asks for another number of words.)
pub fn survey_closed(
    ring: &[u8],
    line: &[u8],
    k: usize,
    join: &mut [u8],
    words: &mut [u32],
) -> Result<SearchCounts, Refusal>
    ensures { IsClosedSurveyed ring.now line.now k join.old words.old result join.new words.new }
{
    admit_closed(ring, k, line.len(), words.len(), join.len())?;
    let used = fill_join(line, ring.len(), join);
    let lent = &join[..used];
    Ok(survey_line(ring, LineParts { line, join: lent }, k, words))
}
