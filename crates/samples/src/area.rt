// The areas of a row: numbers to fill in, and areas to lend to a call. All room lent to `pack`, `unpack` and the searches
// is canaries at first, so that the program sees which bytes or words the call wrote.
use findings::WORDS_EACH;
use silences::{MOST_SILENCES, PACKED_LENGTH};

// The bytes for the text of all rows. It is more than they have.
pub const TEXT_BYTES: usize = 100000;

// The bytes of an area to fill in: the longest line of a row, which is one edge longer than a line may be. Nothing else
// that a row gives is longer.
pub const AREA_BYTES: usize = 65537;

// The canary in bytes. No row's output ends with a canary, in bytes or in words.
pub const CANARY_BYTE: u8 = 0xA5;

// The canary in words: four canary bytes, so that a `Room` works for bytes and words alike.
pub const CANARY_WORD: u32 = 0xA5A5A5A5;

// The room for a call on a book: bytes for the packer, words for the unpacker. It is more than the bytes of any book.
pub const BOOK_ROOM: usize = PACKED_LENGTH * MOST_SILENCES + 40;

// The words of room for a search: a finding's words for each edge of the longest line that a row gives, which is more
// than any search requires.
pub const SEARCH_ROOM: usize = WORDS_EACH * AREA_BYTES;

// The same for both passes of a two-way scan.
pub const TWO_WAY_ROOM: usize = 2 * SEARCH_ROOM;

// An area with one value throughout: 0 to fill in, canaries to lend. It comes from a function because the check knows the
// length of a returned array at once, while it counts the elements of an array made in place one by one; for a long one
// that takes seconds. Every array of more than 10,000 elements here comes from this function for this reason.
pub fn filled<T: Copy, const N: usize>(value: T) -> [T; N] {
    [value; N]
}

// The first `count` places of an area; all, if it has fewer.
pub fn lend<T>(area: &mut [T], count: usize) -> &mut [T] {
    let lent = count.min(area.len());
    &mut area[..lent]
}

// What rooms are made of: bytes and words.
pub trait Place: Copy {
    // The word that is compared with the canary, shown and summed up.
    fn word(self) -> u32;
}

// A byte four times over, as the canary in words is made.
impl Place for u8 {
    fn word(self) -> u32 {
        u32::from_be_bytes([self; 4])
    }
}

impl Place for u32 {
    fn word(self) -> u32 {
        self
    }
}

// Room for a call, all canaries: the places lent to it, and those after them.
#[derive(Drop)]
pub struct Room<'a, T> {
    pub lent: &'a mut [T],
    behind: &'a [T],
}

impl<'a, T: Place> Room<'a, T> {
    // As many places of an area as a row lends; all if it does not say. No row lends more than there are.
    pub fn new(area: &'a mut [T], count: Option<usize>) -> Room<'a, T> {
        let most = area.len();
        let (lent, behind) = area.split_at_mut(count.unwrap_or(most).min(most));
        Room { lent, behind }
    }

    // The places lent, up to the last one that the call wrote.
    pub fn written(&self) -> &[T] {
        match self
            .lent
            .iter()
            .rposition(|place| place.word() != CANARY_WORD)
        {
            Some(last) => &self.lent[..=last],
            None => &[],
        }
    }

    // Whether every place after those lent is still a canary.
    pub fn is_kept(&self) -> bool {
        self.behind.iter().all(|place| place.word() == CANARY_WORD)
    }
}
