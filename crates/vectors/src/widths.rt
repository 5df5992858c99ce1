// How many bits a machine word has.
pub const WORD_BITS: usize = 64;

// How many words a vector has.
pub const VECTOR_WORDS: usize = 4;

// How many bits a vector has: "Ring: m edges, 1 to 256".
pub const VECTOR_BITS: usize = WORD_BITS * VECTOR_WORDS;
