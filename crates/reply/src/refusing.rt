// Writes the line of a refusal: its number and its place, as document 01 gives them.
ghost use Rattle.std.specs.Prelude.{◌≤◌, length};
ghost use Rattle.reply.specs.Lines.{refusal_line};
ghost use Rattle.reply.specs.Writing.{most_text, IsText};

use crate::writer::Writer;
use answers::Refusal;

// "A refusal prints a single line, such as `refused 2 place 0`." Returns the text's length.
pub fn put_refusal(text: &mut [u8], refusal: Refusal) -> usize
    requires { most_text ≤ length text.old }
    ensures { IsText (refusal_line refusal) text.old result text.new }
{
    let mut writer = Writer {
        area: text,
        next: 0,
    };
    writer.put_line(b"refused # place #\n", &[refusal.number(), refusal.place()]);
    writer.next
}
