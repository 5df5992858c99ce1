// Writing a book's bytes: bytes behind others, fields, and a book of fields.
ghost use Rattle.std.specs.Prelude.{◌≡◌, ◌+◌, ◌≤◌, length};
ghost use Rattle.lists.specs.Areas.{written};
ghost use Rattle.silences.specs.Layout.{field_of, layout};
ghost use Rattle.silences.specs.Packing.{silence_of_words, silences_of};
ghost use Rattle.silences.specs.Faults.{AllFit};
ghost use Rattle.packing.specs.Putting.{AreBytesPut, CanPutField};

use silences::{CEILING_TAG, PACKED_VALUE_LENGTH, RECORD_WORDS};

// Writes bytes from `at` on and returns the byte offset just past them.
fn put_bytes(out: &mut [u8], at: usize, bytes: &[u8]) -> usize
    requires { at + length bytes.now ≤ length out.old }
    ensures { AreBytesPut at bytes.now out.old result out.new }
{
    let next = at + bytes.len();
    out[at..next].copy_from_slice(bytes);
    next
}

// Writes the field of a record's silence from `at` on: "tag 22, length 12, the old ten bytes and a two-byte distance",
// "numbers high byte first". Returns the byte offset just past it.
fn put_field(out: &mut [u8], at: usize, words: &[u32]) -> usize
    requires { CanPutField at words.now out.old }
    ensures { AreBytesPut at (field_of (silence_of_words words.now)) out.old result out.new }
{
    let length_at = put_bytes(out, at, &[CEILING_TAG]);
    let value_at = put_bytes(out, length_at, &(PACKED_VALUE_LENGTH as u16).to_be_bytes());
    let ring_number_at = put_bytes(out, value_at, &words[0].to_be_bytes());
    let start_at = put_bytes(out, ring_number_at, &(words[1] as u16).to_be_bytes());
    let ceiling_at = put_bytes(out, start_at, &words[2].to_be_bytes());
    put_bytes(out, ceiling_at, &(words[3] as u16).to_be_bytes())
}

// Writes the field of each silence of the words, one after the other from the area's first byte on.
pub fn put_fields(words: &[u32], out: &mut [u8])
    requires { AllFit (silences_of words.now) × (length (layout (silences_of words.now)) ≤ length out.old) }
    ensures { out.new ≡ written (layout (silences_of words.now)) out.old }
{
    let mut to = 0;
    for record in words.chunks_exact(RECORD_WORDS) {
        to = put_field(out, to, record);
    }
}
