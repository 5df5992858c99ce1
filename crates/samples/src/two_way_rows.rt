// Rows for the two-way scan and for the reversal (document 02, ticket 6). A row for `scan_two_way` gives its name, ring,
// line, allowance and room; printed are the answer, the words written, and whether all words after the room that was lent
// are kept. A row for `reversed_code` gives codes, one for `reversed` a ring; printed are the reversed codes, and for a
// ring whether the places past them have 0.
use crate::area::{AREA_BYTES, CANARY_WORD, Room, TWO_WAY_ROOM};
use crate::edges::Searched;
use crate::printing::PrintedAs;
use crate::table::Row;
use crate::{area, edges, paper, printing};
use reversal::{MOST_REVERSED, reversed, reversed_code};
use std::io;

// Scans a line for a ring both ways, and prints the answer and the words written.
pub fn scan(rt: &impl Print, searched: Searched<'_>) -> io::Result<()> {
    let Searched { row, ring, line, k } = searched;
    let mut words: [u32; TWO_WAY_ROOM] = area::filled(CANARY_WORD);
    let mut room = Room::new(&mut words, row.number(4));
    paper::print_two_way(rt, two_way::scan_two_way(ring, line, k, room.lent))?;
    printing::end_row(rt, PrintedAs::Findings, &room)
}

// Runs one row through the two-way scan.
pub fn two_way_row(rt: &impl Print, row: Row<'_>) -> io::Result<()> {
    let mut ring: [u8; AREA_BYTES] = area::filled(0);
    let mut line: [u8; AREA_BYTES] = area::filled(0);
    scan(rt, Searched::of_row(row, &mut ring, &mut line))
}

// Runs one row through `reversed_code`: prints the reversed code of each code, of 256 at most.
pub fn reversed_code_row(rt: &impl Print, row: Row<'_>) -> io::Result<()> {
    let mut area: [u8; AREA_BYTES] = area::filled(0);
    let codes = edges::of_field(row.field(1), &mut area);
    let mut words = [0u32; MOST_REVERSED];
    for (word, code) in words.iter_mut().zip(codes) {
        *word = u32::from(reversed_code(*code));
    }
    let held = codes.len().min(MOST_REVERSED);
    printing::print_places(rt, PrintedAs::Codes, &words[..held])?;
    println!(rt)
}

// Runs one row through `reversed`: prints the reversed ring, and whether the places past it have 0.
pub fn reversed_row(rt: &impl Print, row: Row<'_>) -> io::Result<()> {
    let mut area: [u8; AREA_BYTES] = area::filled(0);
    let ring = edges::of_field(row.field(1), &mut area);
    let words = reversed(ring).map(u32::from);
    let (held, behind) = words.split_at(ring.len().min(MOST_REVERSED));
    printing::print_number(rt, "edges", held.len())?;
    printing::print_places(rt, PrintedAs::Codes, held)?;
    if behind.iter().all(|word| *word == 0) {
        println!(rt; " behind zero")
    } else {
        println!(rt; " behind touched")
    }
}
