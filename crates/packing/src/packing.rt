// Packing words into a book. Every refusal comes before the first byte is written, so that a refusal writes nothing.
ghost use Rattle.packing.specs.Calls.{IsPacked};

use crate::judging::judge;
use crate::putting::put_fields;
use answers::Refusal;
use silences::{MOST_SILENCES, PACKED_LENGTH, RECORD_WORDS};

// "8 a multiple of 4, at most 4,000": the most words that can be packed.
const MOST_WORDS: usize = RECORD_WORDS * MOST_SILENCES;

// Packs silences, four words each (cell, ring number, start, ceiling), into a book and returns the number of records;
// or refuses with 8, 9, 7 or 10: "packer 8, then each record 9 before 7, then 10".
pub fn pack(words: &[u32], out: &mut [u8]) -> Result<usize, Refusal>
    ensures { IsPacked words.now out.old result out.new }
{
    if words.len() % RECORD_WORDS != 0 || MOST_WORDS < words.len() {
        return Err(Refusal::WordCount);
    }
    judge(words)?;
    let records = words.len() / RECORD_WORDS;
    if out.len() < PACKED_LENGTH * records {
        return Err(Refusal::OutputRoom);
    }
    put_fields(words, out);
    Ok(records)
}
