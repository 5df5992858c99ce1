// One field of the program's input: "one-byte tag, two-byte length, value; numbers high byte first".
ghost use Rattle.request.specs.Parsing.{IsFieldEnd};

use answers::Refusal;
use fields::{HEAD_LENGTH, LENGTH_BYTES, TAG_BYTES, number_at};

// A kind of field: its tag, and the least and the most bytes of its value.
#[derive(Clone, Copy)]
pub struct FieldKind {
    pub tag: u8,
    pub least: usize,
    pub most: usize,
}

impl FieldKind {
    // The byte offset just past the field of this kind that begins at `at`, or refusal 11 at `at` if no such field stands there. It
    // stands if it has the kind's tag, its value has `least` to `most` bytes, and it is not cut.
    pub fn end(self, input: &[u8], at: usize) -> Result<usize, Refusal>
        ensures { IsFieldEnd self input.now at result }
    {
        let fault = Err(Refusal::Input(at));
        if input.len() < HEAD_LENGTH || input.len() - HEAD_LENGTH < at || input[at] != self.tag {
            return fault;
        }
        let long = number_at(input, at + TAG_BYTES, LENGTH_BYTES) as usize;
        if long < self.least || self.most < long || input.len() - at - HEAD_LENGTH < long {
            return fault;
        }
        Ok(at + HEAD_LENGTH + long)
    }
}
