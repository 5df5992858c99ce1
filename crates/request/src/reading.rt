// Reads the request that the program's input holds: the five fields in their order, and then the book.
ghost use Rattle.request.specs.RequestReading.{IsRequestRead};

use crate::field::FieldKind;
use answers::Refusal;
use fields::{HEAD_LENGTH, number_at};

// "It reads at most 32,768 bytes of standard input".
pub const MOST_INPUT: usize = 32768;

// The bytes of a cell. (As many as in a silence's field, but another sentence of the document says so. So it is for a ring
// number.)
const CELL_BYTES: usize = 4;

// The bytes of a ring number.
const RING_NUMBER_BYTES: usize = 2;

// The bytes of an allowance.
const ALLOWANCE_BYTES: usize = 1;

// The most edges of a line in the program's input.
pub const MOST_LINE_BYTES: usize = 4096;

// "34 cell (4 bytes)"
const CELL: FieldKind = FieldKind {
    tag: 0x34,
    least: CELL_BYTES,
    most: CELL_BYTES,
};

// "35 ring number (2)"
const RING_NUMBER: FieldKind = FieldKind {
    tag: 0x35,
    least: RING_NUMBER_BYTES,
    most: RING_NUMBER_BYTES,
};

// "33 allowance (1)"
const ALLOWANCE: FieldKind = FieldKind {
    tag: 0x33,
    least: ALLOWANCE_BYTES,
    most: ALLOWANCE_BYTES,
};

// "31 ring (any length)": any length that two bytes can hold.
const RING: FieldKind = FieldKind {
    tag: 0x31,
    least: 0,
    most: 65535,
};

// "32 line (at most 4,096)"
const LINE: FieldKind = FieldKind {
    tag: 0x32,
    least: 0,
    most: MOST_LINE_BYTES,
};

// The parts of a request: its numbers, and its ring, line and book as they lie in the input.
#[derive(Clone, Copy)]
pub struct Parts<'a> {
    pub cell: u32,
    pub ring_number: u16,
    pub allowance: usize,
    pub ring: &'a [u8],
    pub line: &'a [u8],
    pub book: &'a [u8],
}

// "a longer input is refusal 11, place 0, and is tested first". Then the five fields are read in their order. The first that is
// missing, cut, wrongly tagged or wrongly long gives refusal 11, at the offset where it begins or should begin.
pub fn read_request(input: &[u8]) -> Result<Parts<'_>, Refusal>
    ensures { IsRequestRead input.now result }
{
    if MOST_INPUT < input.len() {
        return Err(Refusal::Input(0));
    }
    let cell_end = CELL.end(input, 0)?;
    let ring_number_end = RING_NUMBER.end(input, cell_end)?;
    let allowance_end = ALLOWANCE.end(input, ring_number_end)?;
    let ring_end = RING.end(input, allowance_end)?;
    let line_end = LINE.end(input, ring_end)?;
    Ok(Parts {
        cell: number_at(input, HEAD_LENGTH, CELL_BYTES),
        ring_number: number_at(input, cell_end + HEAD_LENGTH, RING_NUMBER_BYTES) as u16,
        allowance: number_at(input, ring_number_end + HEAD_LENGTH, ALLOWANCE_BYTES) as usize,
        ring: &input[allowance_end + HEAD_LENGTH..ring_end],
        line: &input[ring_end + HEAD_LENGTH..line_end],
        book: &input[line_end..],
    })
}
