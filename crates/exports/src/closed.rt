// Survey, scan and report of a line that is closed as well, for C.
ghost use Rattle.exports.specs.Exported.{IsSurveyClosedExported, IsScanClosedExported, IsReportClosedExported};

use crate::answering::{Answer, report_answer, search_answer};
use outlines::{Subject, report_closed, scan_closed, survey_closed};

// `outlines::survey_closed` for C.
#[unsafe(no_mangle)]
pub extern "C" fn outlines_survey_closed(
    ring: &[u8],
    line: &[u8],
    k: usize,
    join: &mut [u8],
    words: &mut [u32],
) -> Answer
    ensures { IsSurveyClosedExported ring.now line.now k join.old words.old result join.new words.new }
{
    search_answer(survey_closed(ring, line, k, join, words))
}

// `outlines::scan_closed` for C.
#[unsafe(no_mangle)]
pub extern "C" fn outlines_scan_closed(
    ring: &[u8],
    line: &[u8],
    k: usize,
    join: &mut [u8],
    words: &mut [u32],
) -> Answer
    ensures { IsScanClosedExported ring.now line.now k join.old words.old result join.new words.new }
{
    search_answer(scan_closed(ring, line, k, join, words))
}

// `outlines::report_closed` for C.
#[unsafe(no_mangle)]
pub extern "C" fn outlines_report_closed(
    cell: u32,
    ring_number: u16,
    ring: &[u8],
    line: &[u8],
    k: usize,
    book: &[u8],
    join: &mut [u8],
    words: &mut [u32],
) -> Answer
    ensures { IsReportClosedExported cell ring_number ring.now line.now k book.now join.old words.old result join.new words.new }
{
    let subject = Subject { cell, ring_number };
    report_answer(report_closed(subject, ring, line, k, book, join, words))
}
