// Asks the silence book for one finding, which is then hidden or shown.
ghost use Rattle.std.specs.Prelude.{◌≡◌, ◌<◌, ◌^◌};
ghost use Rattle.silences.specs.Silences.{address};
ghost use Rattle.silences.specs.Addresses.{address_of};
ghost use Rattle.findings.specs.Putting.{finding_of};
ghost use Rattle.outlines.specs.Hiding.{CanAsk, IsHiddenOrShown, IsShownPut};

use answers::LinePlace;
use book::{hides, seek_on};
use findings::{Finding, put_finding};
use silences::{Address, Field};

// Whom a report is for: a cell, and one of its rings by its number.
#[derive(Clone, Copy)]
pub struct Subject {
    pub cell: u32,
    pub ring_number: u16,
}

// Whom a scan is for. With an empty book all findings are shown, whatever the cell and the ring number, so both are 0.
pub const NOBODY: Subject = Subject {
    cell: 0,
    ring_number: 0,
};

impl Subject {
    // The address of a start: cell, ring number and start.
    fn address_of(self, start: LinePlace) -> Address
        requires { start.0 < 2 ^ 32 }
        ensures { address_of result ≡ address self.cell self.ring_number start.0 }
    {
        Address {
            cell: self.cell,
            ring_number: self.ring_number,
            start: start.0 as u32,
        }
    }
}

// How many findings were shown so far, how many were hidden, and the field that the book gave for the last finding (at
// first the book's first field). Starts rise, so no field before that one is read again.
#[derive(Clone, Copy)]
pub struct BookAsked {
    pub shown: usize,
    pub hidden: usize,
    pub held: Option<Field>,
}

// Counts one finding more: as hidden if the field sought from the held one on hides it, else as shown. No word is
// written.
pub fn ask(subject: Subject, book: &[u8], asked: BookAsked, finding: Finding) -> BookAsked
    requires { CanAsk asked (finding_of finding) }
    ensures { IsHiddenOrShown subject.cell subject.ring_number book.now asked (finding_of finding) result }
{
    let address = subject.address_of(finding.start);
    let held = seek_on(book, asked.held, address);
    if hides(held, address, finding.distance) {
        BookAsked {
            hidden: asked.hidden + 1,
            held,
            ..asked
        }
    } else {
        BookAsked {
            shown: asked.shown + 1,
            held,
            ..asked
        }
    }
}

// Puts a shown finding's words behind those of the shown ones before it. For a hidden finding nothing is written.
// `before` and `shown` are the numbers of shown findings before and after this one was counted.
// (Apart from `ask`: of both in one function the compiler makes a scan that takes 1.1 times as long.)
pub fn put_shown(words: &mut [u32], before: usize, shown: usize, finding: Finding)
    ensures { IsShownPut words.old before shown (finding_of finding) words.new }
{
    if before < shown {
        put_finding(words, before, finding);
    }
}
