// Seeking an address in a book, and whether what was found hides a finding.
ghost use Rattle.book.specs.Calls.{IsSought, IsSoughtOn, IsHidingAsked};

use silences::{Address, Field, field_at};

// Returns the first field from byte offset `from` on that is not below the address; `None` if a faulty field or the
// book's end comes first. A caller with rising addresses keeps it and goes on with `seek_on`, and so reads no field
// twice.
pub fn seek(book: &[u8], from: usize, address: Address) -> Option<Field>
    ensures { IsSought book.now from address result }
{
    let mut at = from;
    while let Some(field) = field_at(book, at) {
        if field.address >= address {
            return Some(field);
        }
        at = field.next;
    }
    None
}

// Seeks the next of rising addresses; `held` is what was returned for the one before, or at first the book's first
// field. If it is not below the address it is kept, else the address is sought from just past it. If `held` is `None`,
// so is the result.
pub fn seek_on(book: &[u8], held: Option<Field>, address: Address) -> Option<Field>
    ensures { IsSoughtOn book.now held address result }
{
    let field = held?;
    if field.address < address {
        return seek(book, field.next, address);
    }
    held
}

// Whether `sought` hides a finding with this address and this distance: it is a field, its address is the finding's,
// and the distance is at most its ceiling. (A `match`, because a proof can cite nothing of the closure that
// `is_some_and` would take.)
pub fn hides(sought: Option<Field>, address: Address, distance: usize) -> bool
    ensures { IsHidingAsked sought address distance result }
{
    match sought {
        Some(field) => field.address == address && distance <= field.ceiling as usize,
        None => false,
    }
}
