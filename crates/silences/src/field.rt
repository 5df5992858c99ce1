// Reading the field at a byte offset of a book. What it holds, and so where the next field begins, follows from its
// tag.
ghost use Rattle.std.specs.Prelude.{◌≡◌, ◌+◌, ◌≤◌, length};
ghost use Rattle.silences.specs.Layout.{kind_by_tag, address_bytes};
ghost use Rattle.silences.specs.Reading.{address_at, field_at};
ghost use Rattle.silences.specs.Addresses.{kind_of, CanBeField, address_of, sought_of};

use crate::addresses::{Address, Field};
use crate::lengths::{
    ADDRESS_BYTES, CEILING_BYTES, CEILING_TAG, CELL_BYTES, EXACT_TAG, RING_NUMBER_BYTES,
    START_BYTES,
};
use fields::{HEAD_LENGTH, LENGTH_BYTES, TAG_BYTES, number_at};

// The table of tags: how many bytes a field of this tag has for its ceiling; or `None`, if it is no silence's tag.
fn ceiling_bytes_of(tag: u8) -> Option<usize>
    ensures { kind_of result ≡ kind_by_tag tag }
{
    match tag {
        EXACT_TAG => Some(0),
        CEILING_TAG => Some(CEILING_BYTES),
        _ => None,
    }
}

// "cell (4 bytes), ring number (2), start (4)": the address whose bytes begin at byte offset `at`.
fn address_at(book: &[u8], at: usize) -> Address
    requires { at + address_bytes ≤ length book.now }
    ensures { address_of result ≡ address_at book.now at }
{
    let ring_number_at = at + CELL_BYTES;
    let start_at = ring_number_at + RING_NUMBER_BYTES;
    let cell = number_at(book, at, CELL_BYTES);
    let ring_number = number_at(book, ring_number_at, RING_NUMBER_BYTES) as u16;
    let start = number_at(book, start_at, START_BYTES);
    Address {
        cell,
        ring_number,
        start,
    }
}

// Returns the field at byte offset `at`, whose tag has this kind: `ceiling_bytes` bytes for a ceiling. It is `None` if the
// field is cut off or its length bytes say another length. A ceiling in no bytes is 0.
fn field_of_kind(book: &[u8], at: usize, ceiling_bytes: usize) -> Option<Field>
    requires { CanBeField book.now at ceiling_bytes }
    ensures { sought_of result ≡ field_at book.now at }
{
    let long = ADDRESS_BYTES + ceiling_bytes;
    if book.len() - at < HEAD_LENGTH + long {
        return None;
    }
    if number_at(book, at + TAG_BYTES, LENGTH_BYTES) as usize != long {
        return None;
    }
    let value = at + HEAD_LENGTH;
    let address = address_at(book, value);
    let ceiling = number_at(book, value + ADDRESS_BYTES, ceiling_bytes) as u16;
    Some(Field {
        address,
        ceiling,
        next: value + long,
    })
}

// Returns the field at byte offset `at`, or `None` if no whole field of a silence stands there. The offset may be any
// number, and `get` compares it with the book's length before anything is added to it.
pub fn field_at(book: &[u8], at: usize) -> Option<Field>
    ensures { sought_of result ≡ field_at book.now at }
{
    let tag = book.get(at)?;
    field_of_kind(book, at, ceiling_bytes_of(*tag)?)
}
