// Rows for the import of vertices (document 02, ticket 7). A row for `import_vertices` gives its name, the numbers of the
// vertices, how many of them are passed, and the room; printed are the answer, the bytes written, and whether all bytes
// after the room that was lent are kept. A row for `scan_vertices` gives a ring and a line by their vertices and an
// allowance: both are imported, and the line is scanned for the ring both ways.
use crate::area::{BOOK_ROOM, CANARY_BYTE, Room};
use crate::edges::Searched;
use crate::printing::PrintedAs;
use crate::table::{Row, count_numbers};
use crate::{area, paper, printing, table, two_way_rows};
use answers::Refusal;
use std::io;
use vertices::import_vertices;

// The numbers of a vertex: north and east.
const NUMBERS_EACH: usize = 2;

// The vertices that a field that `*` begins gives: two more than a boundary may have. No row gives more.
const ROW_VERTICES: usize = 4098;

const MOST_ROW_NUMBERS: usize = NUMBERS_EACH * ROW_VERTICES;

// How many numbers a field gives.
fn number_count(field: &[u8]) -> usize {
    if field.starts_with(b"*") {
        MOST_ROW_NUMBERS
    } else {
        count_numbers(field)
    }
}

// Fills the numbers that a field gives into the front of `numbers`, which are 0. Of the vertices that a field gives which
// `*` begins, vertex i has north i and east i times i.
fn fill_numbers(field: &[u8], numbers: &mut [i32]) {
    if !field.starts_with(b"*") {
        table::fill_numbers(field, numbers);
        return;
    }
    for (vertex, i) in numbers.chunks_mut(NUMBERS_EACH).zip(0i32..) {
        for (number, value) in vertex.iter_mut().zip([i, i.saturating_mul(i)]) {
            *number = value;
        }
    }
}

// Imports the first `count` numbers that a field gives.
fn import(field: &[u8], count: usize, edges: &mut [u8]) -> Result<usize, Refusal> {
    let mut area = [0i32; MOST_ROW_NUMBERS];
    let numbers = area::lend(&mut area, count);
    fill_numbers(field, numbers);
    import_vertices(numbers, edges)
}

// Runs one row through the import.
pub fn import_row(rt: &impl Print, row: Row<'_>) -> io::Result<()> {
    let field = row.field(1);
    let count = row.number(2).unwrap_or(number_count(field));
    let mut bytes: [u8; BOOK_ROOM] = area::filled(CANARY_BYTE);
    let mut room = Room::new(&mut bytes, row.number(3));
    paper::print_count(rt, "edges", import(field, count, room.lent))?;
    printing::end_row(rt, PrintedAs::Bytes, &room)
}

// Imports the vertices that a field gives into the front of an area, and returns their edges.
fn edges_of<'a>(field: &[u8], area: &'a mut [u8]) -> &'a [u8] {
    let count = import(field, number_count(field), area).unwrap_or(0);
    area::lend(area, count)
}

// Runs one row through two imports and the two-way scan.
pub fn scan_row(rt: &impl Print, row: Row<'_>) -> io::Result<()> {
    let mut ring: [u8; BOOK_ROOM] = area::filled(CANARY_BYTE);
    let mut line: [u8; BOOK_ROOM] = area::filled(CANARY_BYTE);
    let searched = Searched {
        row,
        ring: edges_of(row.field(1), &mut ring),
        line: edges_of(row.field(2), &mut line),
        k: row.number(3).unwrap_or(0),
    };
    two_way_rows::scan(rt, searched)
}
