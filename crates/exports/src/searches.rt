// Survey, scan and report, for C.
ghost use Rattle.exports.specs.Exported.{IsSurveyExported, IsScanExported, IsReportExported};

use crate::answering::{Answer, report_answer, search_answer};
use outlines::{Subject, report, scan, survey};

// `outlines::survey` for C.
#[unsafe(no_mangle)]
pub extern "C" fn outlines_survey(ring: &[u8], line: &[u8], k: usize, words: &mut [u32]) -> Answer
    ensures { IsSurveyExported ring.now line.now k words.old result words.new }
{
    search_answer(survey(ring, line, k, words))
}

// `outlines::scan` for C.
#[unsafe(no_mangle)]
pub extern "C" fn outlines_scan(ring: &[u8], line: &[u8], k: usize, words: &mut [u32]) -> Answer
    ensures { IsScanExported ring.now line.now k words.old result words.new }
{
    search_answer(scan(ring, line, k, words))
}

// `outlines::report` for C.
#[unsafe(no_mangle)]
pub extern "C" fn outlines_report(
    cell: u32,
    ring_number: u16,
    ring: &[u8],
    line: &[u8],
    k: usize,
    book: &[u8],
    words: &mut [u32],
) -> Answer
    ensures { IsReportExported cell ring_number ring.now line.now k book.now words.old result words.new }
{
    let subject = Subject { cell, ring_number };
    report_answer(report(subject, ring, line, k, book, words))
}
