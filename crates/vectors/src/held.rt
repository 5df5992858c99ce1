// Vectors of four words, held by value. A caller can keep a vector in its first `count` words; a count above 4 is taken
// as 4.
ghost use Rattle.std.specs.Prelude.{◌≡◌, cond, ◌-◌, ◌^◌, ◌≤◌, ◌<◌, min, ltb, get_or};
ghost use Rattle.vectors.specs.Bits.{word_bits, first_bits, no_bit};
ghost use Rattle.vectors.specs.ByValue.{vector_words, carry_into, grown_word, grown_words};

use crate::widths::{VECTOR_WORDS, WORD_BITS};

// The place of a word's highest bit.
const TOP: usize = 63;

// A word with every bit set.
const ALL_BITS: u64 = 0xffff_ffff_ffff_ffff;

// A word with its lowest `count` bits set; with every bit set if `count` is 64 or more.
fn low_bits(count: usize) -> u64
    ensures { result ≡ 2 ^ min word_bits count - 1 }
{
    if count < WORD_BITS {
        (1u64 << count) - 1
    } else {
        ALL_BITS
    }
}

// The vector whose first m bits are set. It stands for the empty stretch, which is the beginning of every rotation.
pub fn first_bits(m: usize) -> [u64; VECTOR_WORDS]
    ensures { result ≡ first_bits m vector_words }
{
    let mut new = [0u64; VECTOR_WORDS];
    for w in 0..VECTOR_WORDS {
        new[w] = low_bits(m.saturating_sub(w * WORD_BITS));
    }
    new
}

// What comes into word w when the first `words` words are shifted down by one: the next word's lowest bit at the top, or
// into the last word what was bit 0, at the place of bit m - 1. Word 0 is shifted up whole: what comes to stand above that
// place lies past bit m - 1, where no occurrence vector has a bit, so a mask would only cost time.
fn carry_into(held: [u64; VECTOR_WORDS], m: usize, words: usize, w: usize) -> u64
    requires { (w < vector_words) × (words ≤ vector_words) }
    ensures { result ≡ carry_into m words held w }
{
    if w + 1 < words {
        held[w + 1] << TOP
    } else {
        // 63 is added in place of subtracting 1, because m may be 0
        held[0] << ((m % WORD_BITS + (WORD_BITS - 1)) % WORD_BITS)
    }
}

// Word w of the held vector grown by one edge.
fn grown_word(
    held: [u64; VECTOR_WORDS],
    occurs: [u64; VECTOR_WORDS],
    m: usize,
    words: usize,
    w: usize,
) -> u64
    requires { (w < vector_words) × (words ≤ vector_words) }
    ensures { result ≡ grown_word m words occurs held w }
{
    if w < words {
        ((held[w] >> 1) | carry_into(held, m, words, w)) & occurs[w]
    } else {
        0
    }
}

// The held vector of m bits, kept in its first `count` words, grown by one edge: rotated by one place, AND the edge's
// occurrence vector. It is written word by word, without a loop, so that the compiler keeps a vector in registers and
// makes code of its own for each count that a caller passes as a literal. The count is a number and no const parameter:
// `grown_words`, `vector_at` and the samples of specs/ speak of four words with a count, which may be known only at run
// time.
pub fn grown(
    held: [u64; VECTOR_WORDS],
    occurs: [u64; VECTOR_WORDS],
    m: usize,
    count: usize,
) -> [u64; VECTOR_WORDS]
    ensures { result ≡ grown_words m count occurs held }
{
    let words = count.min(VECTOR_WORDS);
    [
        grown_word(held, occurs, m, words, 0),
        grown_word(held, occurs, m, words, 1),
        grown_word(held, occurs, m, words, 2),
        grown_word(held, occurs, m, words, 3),
    ]
}

// Word w if it is one of the first `words`, else 0.
fn word_below(held: [u64; VECTOR_WORDS], words: usize, w: usize) -> u64
    requires { w < vector_words }
    ensures { result ≡ cond (ltb w words) (get_or held w 0) 0 }
{
    if w < words { held[w] } else { 0 }
}

// Whether no bit of the first `count` words is set. The words are joined before the one test, so that a caller has one
// branch and not `count`.
pub fn no_bit(held: [u64; VECTOR_WORDS], count: usize) -> bool
    ensures { result ≡ no_bit held count }
{
    let words = count.min(VECTOR_WORDS);
    let joined = word_below(held, words, 0)
        | word_below(held, words, 1)
        | word_below(held, words, 2)
        | word_below(held, words, 3);
    joined == 0
}
