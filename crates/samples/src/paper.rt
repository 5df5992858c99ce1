// Printing an answer as document 01's number, place and counts. An accepted answer has number 0 and place 0; "A refusal
// carries its number and place, zero in every count".
use crate::printing::print_number;
use answers::Refusal;
use findings::SearchCounts;
use outlines::ReportCounts;
use std::io;
use two_way::TwoWayCounts;

// "zero in every count"
const NOTHING: SearchCounts = SearchCounts { found: 0, looks: 0 };

// Prints number and place of an answer: 0 and 0 if it is accepted.
fn print_standing(rt: &impl Print, refusal: Option<Refusal>) -> io::Result<()> {
    print_number(rt, "number", refusal.map_or(0, |refusal| refusal.number()))?;
    print_number(rt, "place", refusal.map_or(0, |refusal| refusal.place()))
}

// Prints an answer of one count: "Packer and unpacker return the number of records"; "Only edge bytes come out, one per
// vertex" (document 02, ticket 7), their number.
pub fn print_count(rt: &impl Print, label: &str, answer: Result<usize, Refusal>) -> io::Result<()> {
    print_standing(rt, answer.err())?;
    print_number(rt, label, answer.unwrap_or(0))
}

// "Survey and scan return found and looks."
pub fn print_search(rt: &impl Print, answer: Result<SearchCounts, Refusal>) -> io::Result<()> {
    print_standing(rt, answer.err())?;
    let counts = answer.unwrap_or(NOTHING);
    print_number(rt, "found", counts.found)?;
    print_number(rt, "looks", counts.looks)
}

// The report "returns found (hidden ones included), hidden, looks".
pub fn print_report(rt: &impl Print, answer: Result<ReportCounts, Refusal>) -> io::Result<()> {
    print_standing(rt, answer.err())?;
    let counts = answer.unwrap_or(ReportCounts {
        found: 0,
        hidden: 0,
        looks: 0,
    });
    print_number(rt, "found", counts.found)?;
    print_number(rt, "hidden", counts.hidden)?;
    print_number(rt, "looks", counts.looks)
}

// Prints found and looks of one pass.
fn print_pass(rt: &impl Print, label: &str, pass: SearchCounts) -> io::Result<()> {
    print_number(rt, label, pass.found)?;
    print_number(rt, "looks", pass.looks)
}

// "Each pass has its own found, looks" (document 02, ticket 6).
pub fn print_two_way(rt: &impl Print, answer: Result<TwoWayCounts, Refusal>) -> io::Result<()> {
    print_standing(rt, answer.err())?;
    let counts = answer.unwrap_or(TwoWayCounts {
        forward: NOTHING,
        backward: NOTHING,
    });
    print_pass(rt, "forward", counts.forward)?;
    print_pass(rt, "backward", counts.backward)
}
