// How equations are spelled: bytes, blanks and names at a place of a text. Behind the text's end stands byte 0, which nothing of the grammar is.
#![tactic(auto)]

ghost use Rattle.std.specs.Prelude.{◌≡◌, ◌≤◌, ◌<◌, length};
ghost use Rattle.grammar.specs.paper.Text.{byte_at, is_blank, is_letter, is_word_byte};
ghost use Rattle.grammar.specs.paper.Grammar.{between};
ghost use Rattle.grammar.specs.Machine.{is_keyword};
ghost use Rattle.spelling.specs.Spelling.{Skipped, WordEnd, Spelled};

pub const SPACE: u8 = 32;

pub const LINE_FEED: u8 = 10;

pub const CARRIAGE_RETURN: u8 = 13;

// "text longer than 8,192 bytes" is refused. An operand below this is the place of a name, any other a gate's number behind it.
pub const MOST_TEXT: usize = 8192;

// "names of 1 to 16 letters and digits"
pub const MOST_LETTERS: usize = 16;

// Where reading stopped: the byte that cannot stand there.
#[derive(Clone, Copy)]
pub struct Stopped {
    pub place: usize,
}

pub fn byte_at(text: &[u8], at: usize) -> u8
    ensures { result ≡ byte_at text.now at }
{
    if at < text.len() { text[at] } else { 0 }
}

#[tactic(auto, unfolding(grammar::specs::paper::Text::is_blank))]
pub fn is_blank(b: u8) -> bool
    ensures { result ≡ is_blank b }
{
    matches!(b, SPACE | LINE_FEED | CARRIAGE_RETURN)
}

#[tactic(auto, unfolding(grammar::specs::paper::Text::is_letter))]
pub fn is_letter(b: u8) -> bool
    ensures { result ≡ is_letter b }
{
    b.is_ascii_alphabetic()
}

#[tactic(auto, using(crate::proofs::Bytes::word_byte_told))]
pub fn is_word_byte(b: u8) -> bool
    ensures { result ≡ is_word_byte b }
{
    b.is_ascii_alphanumeric()
}

// The first place from `at` on where no blank stands.
pub fn skip_blanks(text: &[u8], at: usize) -> usize
    ensures { Skipped text.now at result }
{
    for next in at..text.len() {
        if !is_blank(text[next]) {
            return next;
        }
    }
    at.max(text.len())
}

// Where the letters and digits from `at` on end; the 17th is not looked at.
fn word_end(text: &[u8], at: usize) -> usize
    requires { at < length text.now }
    ensures { WordEnd text.now at result }
{
    let most = at + MOST_LETTERS;
    for end in at..most {
        if !is_word_byte(byte_at(text, end)) {
            return end;
        }
    }
    most
}

// Are the bytes up to `end` the word `in` or `out`?
fn is_keyword(text: &[u8], at: usize, end: usize) -> bool
    requires { (at ≤ end) × (end ≤ length text.now) }
    ensures { result ≡ is_keyword (between text.now at end) }
{
    let word = &text[at..end];
    word == b"in".as_slice() || word == b"out".as_slice()
}

// A name's end. A keyword stops behind itself, for there another letter could have made a name of it.
pub fn read_name(text: &[u8], at: usize) -> Result<usize, Stopped>
    ensures { Spelled text.now at result }
{
    if !is_letter(byte_at(text, at)) {
        return Err(Stopped { place: at });
    }
    let end = word_end(text, at);
    if is_keyword(text, at, end) {
        return Err(Stopped { place: end });
    }
    Ok(end)
}
