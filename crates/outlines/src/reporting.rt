// The report: "runs the quick scan and returns found (hidden ones included), hidden, looks".
ghost use Rattle.outlines.specs.Report.{IsReported};

use crate::asking::Subject;
use crate::quick::{ReportCounts, scan_line};
use answers::Refusal;
use book::read;
use findings::admit;
use windows::LineParts;

// The report, with refusals in the order "report 1 to 7" and 12 after 1. The book is read for every line, also for one
// that has no start.
pub fn report(
    subject: Subject,
    ring: &[u8],
    line: &[u8],
    k: usize,
    book: &[u8],
    words: &mut [u32],
) -> Result<ReportCounts, Refusal>
    ensures { IsReported subject.cell subject.ring_number ring.now line.now k book.now words.old result words.new }
{
    admit(ring, k, line.len(), words.len())?;
    read(book)?;
    let none = &line[..0];
    Ok(scan_line(
        subject,
        ring,
        LineParts { line, join: none },
        k,
        book,
        words,
    ))
}
