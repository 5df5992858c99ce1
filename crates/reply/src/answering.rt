// From the bytes of the program's input to its text: reads the request, makes the report, writes its lines.
ghost use Rattle.std.specs.Prelude.{length};
ghost use Rattle.request.specs.RequestReading.{request_with};
ghost use Rattle.reply.specs.Answering.{request_text, IsAnswered};
ghost use Rattle.reply.specs.Writing.{CanAnswer, IsText};

use crate::refusing::put_refusal;
use crate::writer::Writer;
use findings::WORDS_EACH;
use outlines::{Subject, report};
use request::{MOST_LINE_BYTES, Parts, read_request};

// Words for a finding at each edge of the longest line. Row 4 never requires more.
const MOST_FINDING_WORDS: usize = WORDS_EACH * MOST_LINE_BYTES;

// The most bytes of the first line: 26 that are not digits, and at most 10, 5, 3 and 3 digits.
const MOST_FIRST_LINE: usize = 26 + (10 + 5 + 3 + 3);

// The most bytes of a finding's line: a space or LF after each number, and at most 4, 3, 3 and 3 digits.
const MOST_FINDING_LINE: usize = WORDS_EACH + (4 + 3 + 3 + 3);

// The most bytes of the last line: 22 that are not digits, and at most 4, 4 and 7 digits.
const MOST_LAST_LINE: usize = 22 + (4 + 4 + 7);

// Room for every text: one text line for each finding, and at most one finding for each edge of the line searched. (A refusal's
// line is shorter.)
pub const MOST_TEXT: usize = MOST_FIRST_LINE + MOST_FINDING_LINE * MOST_LINE_BYTES + MOST_LAST_LINE;

// Writes the text for a request and returns its length: the lines of the report, or the line of the report's refusal.
fn answer_request(parts: Parts, text: &mut [u8]) -> usize
    requires { CanAnswer (length parts.line.now) (length text.old) }
    ensures { IsText (request_text (request_with parts.entry)) text.old result text.new }
{
    let Parts {
        cell,
        ring_number,
        allowance,
        ring,
        line,
        book,
    } = parts;
    let mut words = [0u32; MOST_FINDING_WORDS];
    let subject = Subject { cell, ring_number };
    match report(subject, ring, line, allowance, book, &mut words) {
        Err(refusal) => put_refusal(text, refusal),
        Ok(counts) => {
            let shown = WORDS_EACH * (counts.found - counts.hidden);
            let mut writer = Writer {
                area: text,
                next: 0,
            };
            // (Casts, because `From` does not lead from u32 to usize.)
            writer.put_line(
                b"cell # ring # edges # allow #\n",
                &[cell as usize, ring_number as usize, ring.len(), allowance],
            );
            writer.put_finding_lines(&words[..shown]);
            writer.put_line(
                b"found # hidden # looks #\n",
                &[counts.found, counts.hidden, counts.looks],
            );
            writer.next
        }
    }
}

// Writes the program's whole output for this input at the beginning of `text`, and returns its length.
pub fn answer(input: &[u8], text: &mut [u8; MOST_TEXT]) -> usize
    ensures { IsAnswered input.now text.old result text.new }
{
    match read_request(input) {
        Err(fault) => put_refusal(text, fault),
        Ok(parts) => answer_request(parts, text),
    }
}
