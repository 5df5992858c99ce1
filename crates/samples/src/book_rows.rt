// Rows for `read` and `unpack`. A row gives its name, its book (books.rt says how), and the room for `unpack`.
use crate::area::{AREA_BYTES, BOOK_ROOM, CANARY_WORD, Room};
use crate::printing::PrintedAs;
use crate::table::Row;
use crate::{area, books, paper, printing};
use answers::Refusal;
use std::io;

// Runs one row through one of the two calls, which is given the book and the room.
pub fn book_row<F: Fn(&[u8], &mut [u32]) -> Result<usize, Refusal>>(
    rt: &impl Print,
    row: Row<'_>,
    call: F,
) -> io::Result<()>
    requires { F.IsAlwaysCallable call }
{
    let mut bytes: [u8; AREA_BYTES] = area::filled(0);
    let book = books::book(row, 1, &mut bytes);
    let mut words: [u32; BOOK_ROOM] = area::filled(CANARY_WORD);
    let mut room = Room::new(&mut words, row.number(5));
    let answer = call(book, room.lent);
    paper::print_count(rt, "records", answer)?;
    printing::end_row(rt, PrintedAs::Silences, &room)
}
