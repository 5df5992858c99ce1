// Silences and books for the rows. A book is laid out here byte by byte, with a fault if the row gives one; the packer
// is not used. A row gives a book in four fields: its silences or its bytes, how many bytes of their layout the book
// has, and the byte offset and the byte of a fault, if there is one.
ghost use Rattle.std.specs.Prelude.{◌<◌};

use crate::area;
use crate::table::{Number, Row, count_numbers, fill_numbers};
use outlines::Subject;
use silences::{CEILING_BYTES, MOST_SILENCES, PACKED_LENGTH, RECORD_WORDS};

// The most records of tag 22 that a row gives: 1,001, one more than can be packed.
const ROW_RECORDS: usize = MOST_SILENCES + 1;

// The most words that a row gives.
pub const MOST_ROW_WORDS: usize = RECORD_WORDS * ROW_RECORDS;

// The bytes of the book of these records. If a row gives no fault, its offset is this: a book that has a byte there is
// longer than any that a row asks for.
const MOST_ROW_BOOK: usize = PACKED_LENGTH * ROW_RECORDS;

// The words of a record under tag 21, and the bytes of its field.
const EXACT_WORDS: usize = 3;

const EXACT_LENGTH: usize = PACKED_LENGTH - CEILING_BYTES;

// The tag that a book's fields have: 21, without a ceiling, or 22.
#[derive(Clone, Copy)]
enum Tag {
    Exact,
    Ceiling,
}

// The record of cell 7 and ring number 2 with this start, which is also its ceiling.
fn rising_record(start: u32) -> [u32; RECORD_WORDS] {
    [7, 2, start, start]
}

// Fills the words that a field gives into the front of an area of zeros, and returns them: the numbers in it, four for each
// record. A field that `*` begins gives 1,001 rising records, with the starts 0, 1, 2 and so on.
pub fn words<'a>(field: &[u8], area: &'a mut [u32; MOST_ROW_WORDS]) -> &'a [u32] {
    if field.starts_with(b"*") {
        let (records, _) = area.as_chunks_mut::<RECORD_WORDS>();
        for (record, start) in records.iter_mut().zip(0u32..) {
            *record = rising_record(start);
        }
        return area;
    }
    let words = area::lend(area, count_numbers(field));
    fill_numbers(field, words);
    words
}

impl Tag {
    // The bytes of a field.
    fn length(self) -> usize
        ensures { 0 < result }
    {
        match self {
            Tag::Exact => EXACT_LENGTH,
            Tag::Ceiling => PACKED_LENGTH,
        }
    }

    // The words that a list gives for a record.
    fn words(self) -> usize {
        match self {
            Tag::Exact => EXACT_WORDS,
            Tag::Ceiling => RECORD_WORDS,
        }
    }

    // A record laid out: "tag 21 hex, length 10, cell (4 bytes), ring number (2), start (4)", "numbers high byte first";
    // "tag 22, length 12, the old ten bytes and a two-byte distance". Under tag 21 the last two bytes are none of the field.
    fn laid_out(self, record: [u32; RECORD_WORDS]) -> [u8; PACKED_LENGTH] {
        let (tag, length) = match self {
            Tag::Exact => (0x21, 10),
            Tag::Ceiling => (0x22, 12),
        };
        let [cell, ring_number, start, ceiling] = record;
        let [c0, c1, c2, c3] = cell.to_be_bytes();
        let [_, _, r0, r1] = ring_number.to_be_bytes();
        let [s0, s1, s2, s3] = start.to_be_bytes();
        let [_, _, d0, d1] = ceiling.to_be_bytes();
        [
            tag, 0, length, c0, c1, c2, c3, r0, r1, s0, s1, s2, s3, d0, d1,
        ]
    }

    // Fills a book with the fields of the records that a list gives; the last may be cut. Past the last number, the words
    // are 0. With no list the records rise.
    fn lay_out(self, list: Option<&[u8]>, book: &mut [u8]) {
        let mut numbers = list.unwrap_or(&[]).split(|byte| *byte == b' ');
        for (field, start) in book.chunks_mut(self.length()).zip(0u32..) {
            let mut record = rising_record(start);
            if list.is_some() {
                for word in record.iter_mut().take(self.words()) {
                    *word = numbers.next().map_or(0, |text| u32::of(text));
                }
            }
            for (byte, laid) in field.iter_mut().zip(self.laid_out(record)) {
                *byte = laid;
            }
        }
    }
}

// Fills all of a book of zeros: `#` begins its bytes, `-` silences under tag 21; else they are under tag 22. `-` alone
// and a field that `*` begins give rising records. Each mark is part of the first number, where it is ignored.
fn fill(field: &[u8], book: &mut [u8]) {
    match field {
        [b'#', ..] => fill_numbers(field, book),
        [b'-'] => Tag::Exact.lay_out(None, book),
        [b'-', ..] => Tag::Exact.lay_out(Some(field), book),
        [b'*', ..] => Tag::Ceiling.lay_out(None, book),
        _ => Tag::Ceiling.lay_out(Some(field), book),
    }
}

// Fills the book that a row gives in the four fields from `at` on into the front of an area of zeros, and returns it.
pub fn book<'a>(row: Row<'_>, at: usize, area: &'a mut [u8]) -> &'a [u8]
    requires { at < 9 }
{
    let book = area::lend(area, row.number(at + 1).unwrap_or(0));
    fill(row.field(at), book);
    let fault = row.number(at + 2).unwrap_or(MOST_ROW_BOOK);
    if let Some(byte) = book.get_mut(fault) {
        *byte = u8::of(row.field(at + 3));
    }
    book
}

// What a report is given besides a search: whom it is for, and the book.
#[derive(Clone, Copy)]
pub struct Silenced<'a> {
    pub subject: Subject,
    pub book: &'a [u8],
}

impl<'a> Silenced<'a> {
    // Those that a row gives in the fields from `at` on. If it gives none of these, cell and ring number are 0 and the book
    // is empty.
    pub fn of_row(row: Row<'_>, at: usize, area: &'a mut [u8]) -> Silenced<'a>
        requires { at < 7 }
    {
        Silenced {
            subject: Subject {
                cell: u32::of(row.field(at)),
                ring_number: u16::of(row.field(at + 1)),
            },
            book: book(row, at + 2, area),
        }
    }
}
