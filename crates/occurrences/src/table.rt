// The occurrence vectors of a ring's edge codes. Only the words that have a bit are kept: each ring place sets one bit of
// one word, so there are at most 256 of them, whatever the ring. A slot, one byte for each code and part of 64 places,
// leads to the kept word. A ring of at most 64 edges keeps its words by code, and its slots are not read. Slots and kept
// words take 3,080 bytes; all words of all 256 codes would take 8,192.
ghost use Rattle.std.specs.Prelude.{◌≡◌, cond, ◌≤◌, ◌<◌, eqb, length};
ghost use Rattle.vectors.specs.Bits.{word_bits};
ghost use Rattle.vectors.specs.ByValue.{vector_words, vector_bits};
ghost use Rattle.occurrences.specs.EdgeVectors.{word_place, slot_word, vector_at};
ghost use Rattle.occurrences.specs.Storing.{no_slot, kept_count, Occurrences, IsCleared};

use crate::widths::{BYTE_CODES, KEPT_WORDS, LAST_PART, SLOTS};
use vectors::{VECTOR_BITS, VECTOR_WORDS, WORD_BITS};

// The place of the empty word, and so the slot of a code that a part lacks. It is a number and no Option, so that a slot
// is one byte and reading a vector tests none.
const EMPTY: u8 = 192;

// The same for the last part: its words stand one place further on, so 191 leads to the empty word.
const EMPTY_IN_LAST: u8 = 191;

// The slots and the kept words. A caller lends them as they come, and `hold` writes those of a ring.
#[derive(Drop)]
pub struct EdgeVectors {
    pub slots: [u8; SLOTS],
    pub kept: [u64; KEPT_WORDS],
}

// The slot of a code that a part lacks. It is no place of the part.
fn no_slot(part: usize) -> u8
    ensures { result ≡ no_slot part }
{
    if part < LAST_PART {
        EMPTY
    } else {
        EMPTY_IN_LAST
    }
}

// The place of the kept word that a slot of a part leads to. A slot is at most 255, so there is such a word.
fn word_place(part: usize, slot: u8) -> usize
    ensures { (result ≡ word_place part slot) × (result < kept_count) }
{
    let at = usize::from(slot);
    if part < LAST_PART { at } else { at + 1 }
}

// The slot of a code in a part once place r has the code: the slot so far, or r if there was none.
fn slot_from(slot: u8, part: usize, r: usize) -> u8
    requires { r < vector_bits }
    ensures { result ≡ cond (eqb slot (no_slot part)) r slot }
{
    if slot == no_slot(part) { r as u8 } else { slot }
}

impl EdgeVectors {
    // Gives every part and code the slot of a code that the part lacks, and makes every kept word 0.
    fn clear(&mut self)
        ensures { IsCleared self.new }
    {
        self.slots.fill(EMPTY);
        self.slots[LAST_PART * BYTE_CODES..].fill(EMPTY_IN_LAST);
        self.kept.fill(0);
    }

    // The vectors of a ring of at most 64 edges have one word each. They are kept by code, so that reading one needs no
    // slot. The slots are cleared all the same, because the contract fixes both arrays.
    fn keep_whole(&mut self, ring: &[u8])
        requires { length ring.now ≤ word_bits }
        ensures { Occurrences ring.now self.new }
    {
        self.clear();
        for (r, edge) in ring.iter().enumerate() {
            self.kept[usize::from(*edge)] |= 1u64 << r;
        }
    }

    // Of the vectors of a longer ring the words that have a bit are kept.
    fn keep_parts(&mut self, ring: &[u8])
        requires { word_bits < length ring.now }
        ensures { Occurrences ring.now self.new }
    {
        self.clear();
        let counted = ring.len().min(VECTOR_BITS);
        for (r, edge) in ring[..counted].iter().enumerate() {
            let part = r / WORD_BITS;
            let at = usize::from(*edge) + part * BYTE_CODES;
            let slot = slot_from(self.slots[at], part, r);
            self.slots[at] = slot;
            self.kept[word_place(part, slot)] |= 1u64 << (r % WORD_BITS);
        }
    }

    // Writes the slots and the kept words of a ring, whatever they were before. If the ring has more edges than a vector
    // has bits, only the first 256 count.
    pub fn hold(&mut self, ring: &[u8])
        ensures { Occurrences ring.now self.new }
    {
        if ring.len() <= WORD_BITS {
            self.keep_whole(ring);
        } else {
            self.keep_parts(ring);
        }
    }

    // The word of an edge code in a part, of vectors with several words. There is a kept word for any byte, so nothing is
    // tested.
    fn word_of(&self, code: u8, part: usize) -> u64
        requires { part < vector_words }
        ensures { result ≡ slot_word self.now code part }
    {
        let slot = self.slots[usize::from(code) + part * BYTE_CODES];
        self.kept[word_place(part, slot)]
    }

    // The occurrence vector of an edge code, for a ring whose vectors have `count` words. It has four words. For a count
    // above 1 all four are read; in the arrays of a ring those past its last part are 0.
    pub fn vector_of(&self, code: u8, count: usize) -> [u64; VECTOR_WORDS]
        ensures { result ≡ vector_at self.now code count }
    {
        if count <= 1 {
            return [self.kept[usize::from(code)], 0, 0, 0];
        }
        [
            self.word_of(code, 0),
            self.word_of(code, 1),
            self.word_of(code, 2),
            self.word_of(code, 3),
        ]
    }
}
