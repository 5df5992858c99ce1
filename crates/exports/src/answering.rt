// The struct that every exported call but the two-way scan returns: five numbers, in C's layout.
ghost use Rattle.std.specs.Prelude.{◌≡◌, ◌<◌, ◌^◌};
ghost use Rattle.answers.specs.Refusals.{place_of};
ghost use Rattle.answers.specs.Paper.{answer_paper, refused};
ghost use Rattle.book.specs.Calls.{paper_of as count_paper_of};
ghost use Rattle.findings.specs.Searching.{paper_of as search_paper_of};
ghost use Rattle.outlines.specs.Report.{no_report_counts, paper_of as report_paper_of};
ghost use Rattle.exports.specs.Exported.{paper_of, search_in_struct, one_count_in_struct, paper_in_struct};

use answers::Refusal;
use outlines::{ReportCounts, SearchCounts};

// What every exported call but the two-way scan returns. `refusal` is 0 where the call is accepted. A count that a call does
// not have is 0; pack and unpack return the number of records in `found`, the import of vertices the number of edges.
#[repr(C)]
#[derive(Clone, Copy)]
pub struct Answer {
    pub refusal: u32,
    pub place: u32,
    pub found: u64,
    pub hidden: u64,
    pub looks: u64,
}

// A refusal's number and place, "zero in every count". The proof of each call shows that its places fit 32 bits, and every
// number does: so these are plain casts.
pub fn refused_answer(refusal: Refusal) -> Answer
    requires { place_of refusal < 2 ^ 32 }
    ensures { paper_of result ≡ answer_paper no_report_counts (refused refusal) }
{
    let number = refusal.number();
    let place = refusal.place();
    Answer {
        refusal: number as u32,
        place: place as u32,
        found: 0,
        hidden: 0,
        looks: 0,
    }
}

// The answer of the report. (Casts, because `From` does not lead from usize to u64; none changes a count.)
pub fn report_answer(reported: Result<ReportCounts, Refusal>) -> Answer
    requires { (report_paper_of reported).place < 2 ^ 32 }
    ensures { paper_of result ≡ report_paper_of reported }
{
    match reported {
        Ok(counts) => Answer {
            refusal: 0,
            place: 0,
            found: counts.found as u64,
            hidden: counts.hidden as u64,
            looks: counts.looks as u64,
        },
        Err(refusal) => refused_answer(refusal),
    }
}

// The answer of survey and scan: that of a report which hides nothing.
pub fn search_answer(searched: Result<SearchCounts, Refusal>) -> Answer
    requires { (search_paper_of searched).place < 2 ^ 32 }
    ensures { paper_of result ≡ paper_in_struct search_in_struct (search_paper_of searched) }
{
    report_answer(searched.map(|counts| ReportCounts {
        found: counts.found,
        hidden: 0,
        looks: counts.looks,
    }))
}

// The answer of a call that counts one thing, pack and unpack their records, the import of vertices its edges: that of a
// report which hides nothing and takes no look.
pub fn count_answer(counted: Result<usize, Refusal>) -> Answer
    requires { (count_paper_of counted).place < 2 ^ 32 }
    ensures { paper_of result ≡ paper_in_struct one_count_in_struct (count_paper_of counted) }
{
    report_answer(counted.map(|found| ReportCounts {
        found,
        hidden: 0,
        looks: 0,
    }))
}
