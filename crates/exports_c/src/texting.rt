// Reading a rule's text, and writing it.
ghost use Rattle.exports.specs.Promise.{ReadsText, WritesText};

use c_answers::texting::GcText;

// Reads a text into the bytes of its rule.
#[unsafe(no_mangle)]
pub extern "C" fn gc_read_text(text: &[u8], out: &mut [u8]) -> GcText
    ensures { ReadsText text.now out.old out.new result }
{
    exports::texting::gc_read_text(text, out)
}

// Writes the text of a rule's bytes.
#[unsafe(no_mangle)]
pub extern "C" fn gc_write_text(rule: &[u8], out: &mut [u8]) -> GcText
    ensures { WritesText rule.now out.old out.new result }
{
    exports::texting::gc_write_text(rule, out)
}
