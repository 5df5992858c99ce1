// Unpacking a book into words, four for each record: cell, ring number, start, ceiling.
ghost use Rattle.std.specs.Prelude.{◌≡◌, ◌+◌, ◌*◌, ◌≤◌, None, length};
ghost use Rattle.lists.specs.Areas.{written_at};
ghost use Rattle.silences.specs.Reading.{read_book, silences_read, book_refusal};
ghost use Rattle.silences.specs.Packing.{silence_words, words_of_silences, record_words, area_at_exit};
ghost use Rattle.silences.specs.Silences.{silence};
ghost use Rattle.silences.specs.Addresses.{address_of};
ghost use Rattle.book.specs.Calls.{IsUnpacked};

use crate::reading::read;
use answers::Refusal;
use silences::{Field, RECORD_WORDS, field_at};

// Writes the four words of a field's record from place `to` on.
fn put_record(words: &mut [u32], to: usize, field: Field)
    requires { to + record_words ≤ length words.old }
    ensures { words.new ≡ written_at to (silence_words (silence (address_of field.address) field.ceiling)) words.old }
{
    let address = field.address;
    words[to..to + RECORD_WORDS].copy_from_slice(&[
        address.cell,
        address.ring_number as u32,
        address.start,
        field.ceiling as u32,
    ]);
}

// Writes the words of all records. The book is accepted and there is room, so nothing is refused after a write, and the
// fields end where the book ends. (`to` is counted beside `at`, since only the walk from field to field says how many
// records there are.)
fn put_records(book: &[u8], words: &mut [u32])
    requires { (book_refusal book.now ≡ None) × (record_words * length (silences_read book.now) ≤ length words.old) }
    ensures { words.new ≡ area_at_exit words_of_silences (read_book book.now) words.old }
{
    let mut at = 0;
    let mut to = 0;
    while let Some(field) = field_at(book, at) {
        put_record(words, to, field);
        to += RECORD_WORDS;
        at = field.next;
    }
}

// Writes the words of a book's silences and returns the number of records; else refusal 5, 6, 7 or 10, in this order.
pub fn unpack(book: &[u8], words: &mut [u32]) -> Result<usize, Refusal>
    ensures { IsUnpacked book.now words.old result words.new }
{
    let records = read(book)?;
    if words.len() < RECORD_WORDS * records {
        return Err(Refusal::OutputRoom);
    }
    put_records(book, words);
    Ok(records)
}
