// Rows for `reply::answer`, which makes the report program's text from its input. A row gives its name, the first bytes
// of the input, and the input's length if it is longer; the further bytes are 0. The whole text is printed after the
// row's own line.
use crate::area::AREA_BYTES;
use crate::table::Row;
use crate::{area, edges};
use reply::MOST_TEXT;
use std::io;

// Prints the program's text for an input.
fn print_answer(rt: &impl Print, input: &[u8]) -> io::Result<()> {
    let mut text: [u8; MOST_TEXT] = area::filled(0);
    let length = reply::answer(input, &mut text);
    rt.write_all(&text[..length])
}

// Runs one row.
pub fn answer_row(rt: &impl Print, row: Row<'_>) -> io::Result<()> {
    let mut input: [u8; AREA_BYTES] = area::filled(0);
    let listed = edges::of_field(row.field(1), &mut input).len();
    let count = row.number(2).unwrap_or(listed);
    println!(rt)?;
    print_answer(rt, area::lend(&mut input, count))
}
