// A text as it is written into a lent area. A byte for which there is no room is left out, so no method requires room. There always
// is room: the proofs of `put_refusal` and `answer_request` show it once for each whole text.
ghost use Rattle.std.specs.Prelude.{[], ◌∷◌};
ghost use Rattle.reply.specs.Decimal.{decimal};
ghost use Rattle.reply.specs.Writing.{HasPut};

use itoa::Buffer;

// The area that holds the text, and the byte offset of its next byte.
#[derive(Drop)]
pub struct Writer<'a> {
    pub area: &'a mut [u8],
    pub next: usize,
}

impl Writer<'_> {
    // Puts a byte.
    pub fn put_byte(&mut self, byte: u8)
        ensures { HasPut (byte ∷ []) self.old self.new }
    {
        if self.next < self.area.len() {
            self.area[self.next] = byte;
            self.next += 1;
        }
    }

    // Puts a number in decimal digits without leading zeros. (Not by `write!`, which says what it has written only where it returns
    // `Ok`, and no clause says that it does; `answer` promises the bytes for every input.)
    pub fn put_number(&mut self, number: usize)
        ensures { HasPut (decimal number) self.old self.new }
    {
        let mut buffer = Buffer::new();
        let digits = buffer.format(number).as_bytes();
        for digit in digits {
            self.put_byte(*digit);
        }
    }
}
