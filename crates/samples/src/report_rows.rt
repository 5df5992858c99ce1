// The report of a search row. After ring, line, allowance and room the row gives cell, ring number and a book (books.rt
// says how). If it gives none of these, cell and ring number are 0 and the book is empty.
use crate::area::AREA_BYTES;
use crate::books::Silenced;
use crate::edges::Searched;
use crate::{area, paper};
use std::io;

// Calls `outlines::report` with the cell, ring number and book of a row, and prints the answer.
pub fn report_row(rt: &impl Print, searched: Searched<'_>, lent: &mut [u32]) -> io::Result<()> {
    let Searched { row, ring, line, k } = searched;
    let mut bytes: [u8; AREA_BYTES] = area::filled(0);
    let of = Silenced::of_row(row, 5, &mut bytes);
    let answer = outlines::report(of.subject, ring, line, k, of.book, lent);
    paper::print_report(rt, answer)
}
