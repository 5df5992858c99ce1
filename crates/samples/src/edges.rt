// Rings and lines. A field gives edges in one of three ways: letters, which stand for their codes; `#` and a list of
// codes; `*` and three numbers: the first code, the last code and how many edges. The codes then rise by one from the
// first to the last and begin again at 0.
use crate::area;
use crate::table::{Row, count_numbers, fill_numbers, nth_number};

// What each search is given: ring, line and allowance, and the row for the rest.
#[derive(Clone, Copy)]
pub struct Searched<'a> {
    pub row: Row<'a>,
    pub ring: &'a [u8],
    pub line: &'a [u8],
    pub k: usize,
}

impl<'a> Searched<'a> {
    // Those that a row gives, its ring and its line in two areas of zeros.
    pub fn of_row(row: Row<'a>, ring: &'a mut [u8], line: &'a mut [u8]) -> Searched<'a> {
        Searched {
            row,
            ring: of_field(row.field(1), ring),
            line: of_field(row.field(2), line),
            k: row.number(3).unwrap_or(0),
        }
    }
}

// Fills in codes that rise.
fn fill_rising(first: u8, last: u8, edges: &mut [u8]) {
    let mut code = first;
    for edge in edges.iter_mut() {
        *edge = code;
        code = if code < last { code + 1 } else { 0 };
    }
}

// Fills the edges that a field gives into the front of an area of zeros, and returns them. The mark that begins a list is
// part of its first number, where it is ignored.
pub fn of_field<'a>(field: &[u8], area: &'a mut [u8]) -> &'a [u8] {
    match field {
        [b'*', ..] => {
            let edges = area::lend(area, nth_number(field, 2));
            fill_rising(nth_number(field, 0), nth_number(field, 1), edges);
            edges
        }
        [b'#', ..] => {
            let edges = area::lend(area, count_numbers(field));
            fill_numbers(field, edges);
            edges
        }
        _ => {
            let edges = area::lend(area, field.len());
            for (edge, letter) in edges.iter_mut().zip(field) {
                *edge = *letter;
            }
            edges
        }
    }
}
