// What a search holds of its ring, made once for each call.
use occurrences::EdgeVectors;

// The ring, its double and its occurrence vectors, lent for one common lifetime.
#[derive(Clone, Copy)]
pub struct RingTables<'a> {
    pub ring: &'a [u8],
    pub doubled: &'a [u8],
    pub vectors: &'a EdgeVectors,
}
