// Words in a text, byte for byte.
ghost use Rattle.std.specs.Prelude.{◌≡◌, ◌+◌, length};
ghost use Rattle.std.specs.List.{take_while};
ghost use Rattle.grammar.specs.paper.Text.{byte_at, is_word_byte, word_at, same_word};

use spelling::{byte_at, is_word_byte};

// Does a letter or digit stand there?
fn in_word(text: &[u8], at: usize) -> bool
    ensures { result ≡ is_word_byte (byte_at text.now at) }
{
    is_word_byte(byte_at(text, at))
}

// How many letters and digits a text begins with.
fn letters(text: &[u8]) -> usize
    ensures { result ≡ length (take_while is_word_byte text.now) }
{
    text.iter().take_while(|b| is_word_byte(**b)).count()
}

// Where the word at a place ends.
pub fn end_of_word(text: &[u8], at: usize) -> usize
    ensures { result ≡ at + length (word_at text.now at) }
{
    if at < text.len() {
        at + letters(&text[at..])
    } else {
        at
    }
}

// Is the word from `a` to `end` the one at `b`? Stops at the first difference. Who compares a word with many finds its end once.
#[tactic(auto, using(crate::proofs::Alike::along_none, crate::proofs::Alike::along_within, crate::proofs::Alike::along_fits, crate::proofs::Alike::along_end))]
pub fn is_word_at(text: &[u8], a: usize, end: usize, b: usize) -> bool
    requires { end ≡ a + length (word_at text.now a) }
    ensures { result ≡ same_word (word_at text.now a) (word_at text.now b) }
{
    let size = end - a;
    for i in 0..size {
        if byte_at(text, a + i) != byte_at(text, b + i) {
            return false;
        }
    }
    !in_word(text, b + size)
}

pub fn same_word(text: &[u8], a: usize, b: usize) -> bool
    ensures { result ≡ same_word (word_at text.now a) (word_at text.now b) }
{
    is_word_at(text, a, end_of_word(text, a), b)
}
