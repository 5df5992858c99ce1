// Scan and report of a line that is closed as well (document 02, ticket 3): "edges continue from the beginning after the
// last". The join area is written once no refusal is left to be given, the book's included. Only its first 2·m − 2 bytes,
// or none for n < m, are lent to the scan.
ghost use Rattle.outlines.specs.ClosedScan.{IsClosedScanned};
ghost use Rattle.outlines.specs.ClosedReport.{IsClosedReported};

use crate::asking::{NOBODY, Subject};
use crate::quick::{ReportCounts, scan_line};
use answers::Refusal;
use book::read;
use findings::{SearchCounts, admit_closed};
use windows::{LineParts, fill_join};

// (Not one function each with scan and report of an open line: those have no join area, and row 4 asks for another number
// of words.)

// The quick scan in closed mode.
pub fn scan_closed(
    ring: &[u8],
    line: &[u8],
    k: usize,
    join: &mut [u8],
    words: &mut [u32],
) -> Result<SearchCounts, Refusal>
    ensures { IsClosedScanned ring.now line.now k join.old words.old result join.new words.new }
{
    admit_closed(ring, k, line.len(), words.len(), join.len())?;
    let used = fill_join(line, ring.len(), join);
    let lent = &join[..used];
    let counted = scan_line(NOBODY, ring, LineParts { line, join: lent }, k, b"", words);
    Ok(SearchCounts {
        found: counted.found,
        looks: counted.looks,
    })
}

// The report in closed mode, with refusals in the order 1, 12, 2, 3, 4, 10, 5, 6, 7.
pub fn report_closed(
    subject: Subject,
    ring: &[u8],
    line: &[u8],
    k: usize,
    book: &[u8],
    join: &mut [u8],
    words: &mut [u32],
) -> Result<ReportCounts, Refusal>
    ensures { IsClosedReported subject.cell subject.ring_number ring.now line.now k book.now join.old words.old result join.new words.new }
{
    admit_closed(ring, k, line.len(), words.len(), join.len())?;
    read(book)?;
    let used = fill_join(line, ring.len(), join);
    let lent = &join[..used];
    Ok(scan_line(
        subject,
        ring,
        LineParts { line, join: lent },
        k,
        book,
        words,
    ))
}
