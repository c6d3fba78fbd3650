// Reading a rule's text, and writing it.
ghost use Rattle.exports.specs.Promise.{ReadsText, WritesText};

use c_answers::texting::{GcText, text_numbers};

// Reads a text into the bytes of its rule.
pub fn gc_read_text(text: &[u8], out: &mut [u8]) -> GcText
    ensures { ReadsText text.now out.old out.new result }
{
    let answer = texts::read_text(text, out);
    text_numbers(answer)
}

// Writes the text of a rule's bytes.
pub fn gc_write_text(rule: &[u8], out: &mut [u8]) -> GcText
    ensures { WritesText rule.now out.old out.new result }
{
    let answer = texts::write_text(rule, out);
    text_numbers(answer)
}
