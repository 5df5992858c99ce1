// Rows for `seek`, in whole and faulty books. A row gives its name, its book (books.rt says how), the byte offset to
// seek from, and the address. Printed are the address and the ceiling of the field that is found, and the
// byte offset just past it.
use crate::area::AREA_BYTES;
use crate::printing::print_number;
use crate::table::{Row, nth_number};
use crate::{area, books};
use silences::{Address, Field};
use std::io;

// The address that a field gives: cell, ring number, start.
fn address_of(field: &[u8]) -> Address {
    Address {
        cell: nth_number(field, 0),
        ring_number: nth_number(field, 1),
        start: nth_number(field, 2),
    }
}

// Prints the field that was found, or that there is none.
fn print_sought(rt: &impl Print, sought: Option<Field>) -> io::Result<()> {
    let Some(field) = sought else {
        return print!(rt; " nothing");
    };
    print_number(rt, "cell", field.address.cell as usize)?;
    print_number(rt, "ring number", field.address.ring_number as usize)?;
    print_number(rt, "start", field.address.start as usize)?;
    print_number(rt, "ceiling", field.ceiling as usize)?;
    print_number(rt, "next", field.next)
}

// Runs one row.
pub fn seek_row(rt: &impl Print, row: Row<'_>) -> io::Result<()> {
    let mut bytes: [u8; AREA_BYTES] = area::filled(0);
    let book = books::book(row, 1, &mut bytes);
    let from = row.number(5).unwrap_or(0);
    print_number(rt, "from", from)?;
    print_sought(rt, book::seek(book, from, address_of(row.field(6))))?;
    println!(rt)
}
