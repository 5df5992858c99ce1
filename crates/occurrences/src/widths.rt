use vectors::{VECTOR_BITS, VECTOR_WORDS};

// How many codes have a vector: "every byte value 0 to 255". (That of 255, a mark since document 02, ticket 2, is empty
// for an accepted ring.)
pub const BYTE_CODES: usize = 256;

// The last of the parts of 64 ring places, one for each word of a vector.
pub const LAST_PART: usize = VECTOR_WORDS - 1;

// How many slots there are: one for each code in each part.
pub const SLOTS: usize = BYTE_CODES * VECTOR_WORDS;

// How many words the array of kept words has: one for each ring place that counts, and one more.
pub const KEPT_WORDS: usize = VECTOR_BITS + 1;
