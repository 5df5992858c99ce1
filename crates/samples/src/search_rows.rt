// Rows for `scan`, `survey` and `report`. A row gives its name, ring, line, allowance and room, and for a report also
// what report_rows.rt says. Printed are the answer, the words written, and whether all words after the room that was
// lent are kept.
use crate::area::{AREA_BYTES, CANARY_WORD, Room, SEARCH_ROOM};
use crate::calls::Search;
use crate::edges::Searched;
use crate::printing::PrintedAs;
use crate::table::Row;
use crate::{area, paper, printing, report_rows};
use std::io;

// Calls the search and prints its answer.
fn print_counts(
    rt: &impl Print,
    search: Search,
    searched: Searched<'_>,
    lent: &mut [u32],
) -> io::Result<()> {
    let Searched { row, ring, line, k } = searched;
    match search {
        Search::Scan => paper::print_search(rt, outlines::scan(ring, line, k, lent)),
        Search::Survey => paper::print_search(rt, outlines::survey(ring, line, k, lent)),
        Search::Report => report_rows::report_row(rt, searched, lent),
    }
}

// Searches a line for a ring, and prints the answer and the words written.
fn print_search(rt: &impl Print, search: Search, searched: Searched<'_>) -> io::Result<()> {
    let mut words: [u32; SEARCH_ROOM] = area::filled(CANARY_WORD);
    let mut room = Room::new(&mut words, searched.row.number(4));
    print_counts(rt, search, searched, room.lent)?;
    printing::end_row(rt, PrintedAs::Findings, &room)
}

// Runs one row through one of the three calls.
pub fn search_row(rt: &impl Print, search: Search, row: Row<'_>) -> io::Result<()> {
    let mut ring: [u8; AREA_BYTES] = area::filled(0);
    let mut line: [u8; AREA_BYTES] = area::filled(0);
    print_search(rt, search, Searched::of_row(row, &mut ring, &mut line))
}
