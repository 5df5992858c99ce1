// The quick scan, rules 1 to 5. A silence book is asked for each finding before its words are written: the report lends
// its own book, and the scan an empty one, which hides no finding.
ghost use Rattle.std.specs.Prelude.{length};
ghost use Rattle.windows.specs.Windows.{parts_of, whole_line};
ghost use Rattle.outlines.specs.Scan.{IsScanned};
ghost use Rattle.outlines.specs.LineScan.{CanScan, CanScanLine, LineScanned};

use crate::asking::{BookAsked, NOBODY, Subject, ask, put_shown};
use answers::{LinePlace, Refusal};
use findings::{SearchCounts, admit};
use occurrences::{EdgeVectors, KEPT_WORDS, SLOTS};
use silences::field_at;
use sweep::{RingTables, Sweep, Swept, sweep_on};
use tally::{DOUBLED, MOST_COUNTS, Tally, double};
use windows::LineParts;

// "found (hidden ones included), hidden, looks" of an accepted report.
#[derive(Clone, Copy)]
pub struct ReportCounts {
    pub found: usize,
    pub hidden: usize,
    pub looks: usize,
}

// Goes from candidate to candidate while a window fits in the line. At first the book's first field is held, from which
// `ask` goes on. (`seek` for start 0 would do as well; but then `seek` has two callers, and the compiler does not inline
// it.)
fn scan_windows<'a>(
    subject: Subject,
    tables: RingTables<'a>,
    parts: LineParts<'a>,
    k: usize,
    book: &[u8],
    tally: &mut Tally,
    words: &mut [u32],
) -> ReportCounts
    requires { CanScan tables.ring.now tables.doubled.now tables.vectors.now (parts_of parts) k book.now tally.old.counts words.old }
    ensures { LineScanned subject.cell subject.ring_number tables.entry.ring.now (whole_line (length tables.entry.ring.now) (parts_of parts.entry)) k book.now words.old result.found result.hidden result.looks words.new }
{
    let m = tables.ring.len();
    let n = parts.whole_length(m);
    let mut at = Sweep {
        start: LinePlace(0),
        last: None,
        looks: 0,
    };
    let held = field_at(book, 0);
    let mut asked = BookAsked {
        shown: 0,
        hidden: 0,
        held,
    };
    // A turn goes on past the candidate that it reached, so this is no `for`.
    while at.start.0 + m <= n {
        match sweep_on(at, tables, parts, k, tally) {
            Swept::Ended(next) | Swept::NoFinding(next) => {
                at = next;
            }
            Swept::Found(next, finding) => {
                let before = asked.shown;
                asked = ask(subject, book, asked, finding);
                put_shown(words, before, asked.shown, finding);
                at = next;
            }
        }
    }
    let found = asked.shown + asked.hidden;
    ReportCounts {
        found,
        hidden: asked.hidden,
        looks: at.looks,
    }
}

// Makes the ring's occurrence vectors, its double and the tally, once for each call, and scans the line. Making them
// reads no line edge.
pub fn scan_line<'a>(
    subject: Subject,
    ring: &[u8],
    parts: LineParts<'a>,
    k: usize,
    book: &[u8],
    words: &mut [u32],
) -> ReportCounts
    requires { CanScanLine ring.now (parts_of parts) k book.now words.old }
    ensures { LineScanned subject.cell subject.ring_number ring.now (whole_line (length ring.now) (parts_of parts.entry)) k book.now words.old result.found result.hidden result.looks words.new }
{
    let mut vectors = EdgeVectors {
        slots: [0; SLOTS],
        kept: [0; KEPT_WORDS],
    };
    vectors.hold(ring);
    let mut doubled = [0u8; DOUBLED];
    double(ring, &mut doubled);
    let mut tally = Tally {
        counts: [0; MOST_COUNTS],
    };
    scan_windows(
        subject,
        RingTables {
            ring,
            doubled: &doubled,
            vectors: &vectors,
        },
        parts,
        k,
        book,
        &mut tally,
        words,
    )
}

// The quick scan of an open line: no window crosses its end, so an empty part of it is lent as the join area. The
// book is empty too.
pub fn scan(ring: &[u8], line: &[u8], k: usize, words: &mut [u32]) -> Result<SearchCounts, Refusal>
    ensures { IsScanned ring.now line.now k words.old result words.new }
{
    admit(ring, k, line.len(), words.len())?;
    let none = &line[..0];
    let counted = scan_line(NOBODY, ring, LineParts { line, join: none }, k, b"", words);
    Ok(SearchCounts {
        found: counted.found,
        looks: counted.looks,
    })
}
