// The bytes of a field before its value.

// "one-byte tag"
pub const TAG_BYTES: usize = 1;

// "two-byte length"
pub const LENGTH_BYTES: usize = 2;

// The bytes of tag and length together.
pub const HEAD_LENGTH: usize = TAG_BYTES + LENGTH_BYTES;
