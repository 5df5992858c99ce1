// Rows for `scan_closed`, `survey_closed` and `report_closed`. A row gives its name, ring, line, allowance, room and the
// bytes of the join area, and for a report also cell, ring number and a book. Printed are the answer, the words written,
// the bytes written into the join area, and whether all words and bytes after those that were lent are kept.
use crate::area::{AREA_BYTES, BOOK_ROOM, CANARY_BYTE, CANARY_WORD, Room, SEARCH_ROOM};
use crate::books::Silenced;
use crate::calls::Search;
use crate::edges::Searched;
use crate::printing::{PrintedAs, print_room};
use crate::table::Row;
use crate::{area, paper};
use std::io;

// Calls `outlines::report_closed` with the cell, ring number and book of a row, and prints the answer.
fn report(
    rt: &impl Print,
    searched: Searched<'_>,
    join: &mut [u8],
    lent: &mut [u32],
) -> io::Result<()> {
    let Searched { row, ring, line, k } = searched;
    let mut bytes: [u8; AREA_BYTES] = area::filled(0);
    let of = Silenced::of_row(row, 6, &mut bytes);
    let answer = outlines::report_closed(of.subject, ring, line, k, of.book, join, lent);
    paper::print_report(rt, answer)
}

// Calls the search and prints its answer. It is not the function of search_rows.rt, since these calls take a join area too.
fn print_counts(
    rt: &impl Print,
    search: Search,
    searched: Searched<'_>,
    join: &mut [u8],
    lent: &mut [u32],
) -> io::Result<()> {
    let Searched { row, ring, line, k } = searched;
    match search {
        Search::Scan => paper::print_search(rt, outlines::scan_closed(ring, line, k, join, lent)),
        Search::Survey => paper::print_search(
            rt,
            outlines::survey_closed(ring, line, k, join, lent),
        ),
        Search::Report => report(rt, searched, join, lent),
    }
}

// Searches a closed line for a ring, and prints the answer and what was written into the two areas. A join area that the
// row leaves out has the bytes of a book's room, more than any ring needs.
fn print_search(rt: &impl Print, search: Search, searched: Searched<'_>) -> io::Result<()> {
    let mut words: [u32; SEARCH_ROOM] = area::filled(CANARY_WORD);
    let mut room = Room::new(&mut words, searched.row.number(4));
    let mut bytes: [u8; BOOK_ROOM] = area::filled(CANARY_BYTE);
    let mut join = Room::new(&mut bytes, searched.row.number(5));
    print_counts(rt, search, searched, join.lent, room.lent)?;
    print_room(rt, "written", PrintedAs::Findings, &room)?;
    print_room(rt, "joined", PrintedAs::Bytes, &join)?;
    println!(rt)
}

// Runs one row through one of the three calls.
pub fn closed_row(rt: &impl Print, search: Search, row: Row<'_>) -> io::Result<()> {
    let mut ring: [u8; AREA_BYTES] = area::filled(0);
    let mut line: [u8; AREA_BYTES] = area::filled(0);
    print_search(rt, search, Searched::of_row(row, &mut ring, &mut line))
}
