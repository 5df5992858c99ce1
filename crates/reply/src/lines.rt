// The lines of the text.
ghost use Rattle.reply.specs.Writing.{filled, lines_of_words, HasPut};

use crate::writer::Writer;
use findings::WORDS_EACH;

// The byte of a line's form that stands for a number: `#`.
const HOLE: u8 = 0x23;

impl Writer<'_> {
    // Puts a line by its form, such as `refused # place #` and LF: each `#` becomes the next number in decimal digits, and every
    // other byte is put as it is. (No form here has more `#` than there are numbers; one too many would be 0. Why this is no format
    // string of `write!`, `put_number` says.)
    pub fn put_line(&mut self, form: &[u8], numbers: &[usize])
        ensures { HasPut (filled form.now numbers.now) self.old self.new }
    {
        let mut numbers = numbers.iter();
        for byte in form {
            if *byte == HOLE {
                self.put_number(numbers.next().copied().unwrap_or(0));
            } else {
                self.put_byte(*byte);
            }
        }
    }

    // Puts "one line per shown finding": start, rotation, distance, ties. (Casts, because `From` does not lead from u32 to usize.)
    pub fn put_finding_lines(&mut self, words: &[u32])
        ensures { HasPut (lines_of_words words.now) self.old self.new }
    {
        for finding in words.chunks_exact(WORDS_EACH) {
            let numbers = [
                finding[0] as usize,
                finding[1] as usize,
                finding[2] as usize,
                finding[3] as usize,
            ];
            self.put_line(b"# # # #\n", &numbers);
        }
    }
}
