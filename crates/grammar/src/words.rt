// A character, or the characters of a word, at a place of the text.
ghost use Rattle.std.specs.Prelude.{◌≤◌, length};
ghost use Rattle.bits.specs.Says.{Says};
ghost use Rattle.grammar.specs.inner.Places.{At, WordEnds};

// The first place where what is wanted does not stand.
#[derive(Clone, Copy, Debug, PartialEq, Eq)]
pub struct Fault {
    pub place: usize,
}

// Whether the character stands at `at`.
pub fn stands(text: &[u8], at: usize, char: u8) -> bool
    ensures { Says result (At text.now at char) }
{
    if text.len() <= at {
        return false;
    }
    text[at] == char
}

// The place after the characters of `word`, one after another.
pub fn word_end(text: &[u8], at: usize, word: &[u8]) -> Result<usize, Fault>
    requires { at ≤ length text.now }
    ensures { WordEnds text.now at word.now result }
{
    for i in 0..word.len() {
        if !stands(text, at + i, word[i]) {
            return Err(Fault { place: at + i });
        }
    }
    Ok(at + word.len())
}
