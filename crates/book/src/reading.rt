// Reading a book: how many records it has, or the refusal of its first fault.
ghost use Rattle.std.specs.Prelude.{◌≡◌};
ghost use Rattle.std.specs.Prelude.{None};
ghost use Rattle.silences.specs.Reading.{read_from};
ghost use Rattle.book.specs.Calls.{answer_of, record_count, IsRead};

use answers::Refusal;
use silences::{MOST_SILENCES, PACKED_LENGTH, field_at, is_above};

// "book longer than" 15,000 "bytes": the most bytes that a book may have.
const MOST_BOOK_LENGTH: usize = PACKED_LENGTH * MOST_SILENCES;

// Reads the fields of a book one after the other. "Within a book the first faulty field decides, 6 before 7."
fn read_fields(book: &[u8]) -> Result<usize, Refusal>
    ensures { answer_of result ≡ record_count (read_from book.now None 0) }
{
    let mut at = 0;
    let mut records = 0;
    let mut last = None;
    while at < book.len() {
        let Some(field) = field_at(book, at) else {
            return Err(Refusal::Field(at));
        };
        if !is_above(last, field.address) {
            return Err(Refusal::NotAbove(at));
        }
        last = Some(field.address);
        records += 1;
        at = field.next;
    }
    Ok(records)
}

// Returns the number of records of a book, or refusal 5, 6 or 7, tested in this order.
pub fn read(book: &[u8]) -> Result<usize, Refusal>
    ensures { IsRead book.now result }
{
    if MOST_BOOK_LENGTH < book.len() {
        return Err(Refusal::BookLength);
    }
    read_fields(book)
}
