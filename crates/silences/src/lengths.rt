// The tags of a silence's field, how many bytes each part of it has, how many words a record, and how many silences can
// be packed.
use fields::HEAD_LENGTH;

// "tag 21 hex": an address alone; the ceiling is 0.
pub const EXACT_TAG: u8 = 0x21;

// "tag 22": an address and a ceiling.
pub const CEILING_TAG: u8 = 0x22;

// "cell (4 bytes)"
pub const CELL_BYTES: usize = 4;

// "ring number (2)"
pub const RING_NUMBER_BYTES: usize = 2;

// "start (4)"
pub const START_BYTES: usize = 4;

// "a two-byte distance"
pub const CEILING_BYTES: usize = 2;

// The number of bytes of an address.
pub const ADDRESS_BYTES: usize = CELL_BYTES + RING_NUMBER_BYTES + START_BYTES;

// "length 12": the number of bytes of a value that packing writes.
pub const PACKED_VALUE_LENGTH: usize = ADDRESS_BYTES + CEILING_BYTES;

// The number of bytes of a field that packing writes: head and value.
pub const PACKED_LENGTH: usize = HEAD_LENGTH + PACKED_VALUE_LENGTH;

// The most silences to pack: 15,000 bytes are 1,000 fields of tag 22, and 4,000 words are 1,000 records.
pub const MOST_SILENCES: usize = 1000;

// The number of words of a record: cell, ring number, start, ceiling.
pub const RECORD_WORDS: usize = 4;
