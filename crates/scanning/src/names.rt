// A line of names, from behind its keyword on.
ghost use Rattle.std.specs.Prelude.{◌≡◌, cond, ◌&&◌, [], ◌∷◌, ◌+◌, ◌*◌, ◌≤◌, ◌<◌, length, eqb};
ghost use Rattle.std.proofs.lemmas.List.Edits.{sets};
ghost use Rattle.grammar.specs.paper.Text.{semicolon, most_text};
ghost use Rattle.scanning.specs.Lines.{EntryRead, LineAsked, LineOf};

use spelling::{Stopped, byte_at, read_name, skip_blanks};

pub const SEMICOLON: u8 = 59;

// A name's first byte, and the place behind it.
#[derive(Clone, Copy)]
pub struct Span {
    pub from: usize,
    pub end: usize,
}

// What stands behind a keyword or a name: a name, or the line's end with the place behind it.
#[derive(Clone, Copy)]
pub enum Entry {
    Name(Span),
    End(usize),
}

// Where the next line begins, and how many names are kept.
#[derive(Clone, Copy)]
pub struct Reached {
    pub next: usize,
    pub listed: usize,
}

// `;` ends a line only behind a name.
fn is_end(some: bool, sign: u8) -> bool
    ensures { result ≡ (some && eqb sign semicolon) }
{
    some && sign == SEMICOLON
}

pub fn next_entry(text: &[u8], at: usize, some: bool) -> Result<Entry, Stopped>
    requires { at ≤ length text.now }
    ensures { EntryRead text.now at some result }
{
    let start = skip_blanks(text, at);
    let sign = byte_at(text, start);
    if is_end(some, sign) {
        return Ok(Entry::End(skip_blanks(text, start + 1)));
    }
    if start == at {
        return Err(Stopped { place: at });
    }
    let end = read_name(text, start)?;
    Ok(Entry::Name(Span { from: start, end }))
}

// Keeps a name: its place and, of an input, its number.
fn keep_name(names: &mut [u16], listed: usize, place: usize, outs: bool)
    requires listed_in_bounds { 2 * listed + 1 < length names.old }
    requires listed_lt_most_text { (listed < most_text) × (place < most_text) }
    ensures { names.new ≡ sets names.old (2 * listed) (place ∷ cond outs 0 listed ∷ []) }
{
    names[2 * listed] = place as u16;
    names[2 * listed + 1] = if outs { 0 } else { listed as u16 };
}

// The names of a line, kept behind the `listed` ones that are there.
pub fn read_names(
    text: &[u8],
    at: usize,
    names: &mut [u16],
    listed: usize,
    outs: bool,
) -> Result<Reached, Stopped>
    requires { LineAsked text.now outs at listed names.old }
    ensures { LineOf text.now outs at listed names.old names.new result }
{
    let mut end = at;
    let mut count = listed;
    // a name a turn, up to the line's end
    loop {
        match next_entry(text, end, listed < count)? {
            Entry::Name(span) => {
                keep_name(names, count, span.from, outs);
                end = span.end;
                count += 1;
            }
            Entry::End(next) => {
                return Ok(Reached {
                    next,
                    listed: count,
                });
            }
        }
    }
}
