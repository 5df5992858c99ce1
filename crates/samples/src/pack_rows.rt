// Rows for `pack`. A row gives its name, words, how many of them are packed, and the room. Printed are the answer, the
// bytes written (in hex if they are few), and whether all bytes after the room that was lent are kept.
use crate::area::{BOOK_ROOM, CANARY_BYTE, Room};
use crate::books::MOST_ROW_WORDS;
use crate::printing::PrintedAs;
use crate::table::Row;
use crate::{area, books, paper, printing};
use std::io;

// Packs the words and prints the result.
fn pack_words(rt: &impl Print, words: &[u32], lent: Option<usize>) -> io::Result<()> {
    let mut bytes: [u8; BOOK_ROOM] = area::filled(CANARY_BYTE);
    let mut room = Room::new(&mut bytes, lent);
    paper::print_count(rt, "records", packing::pack(words, room.lent))?;
    printing::end_row(rt, PrintedAs::Bytes, &room)
}

// Runs one row.
pub fn pack_row(rt: &impl Print, row: Row<'_>) -> io::Result<()> {
    let mut words = [0u32; MOST_ROW_WORDS];
    let given = books::words(row.field(1), &mut words).len();
    let count = row.number(2).unwrap_or(given);
    pack_words(rt, area::lend(&mut words, count), row.number(3))
}
