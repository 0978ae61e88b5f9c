// "The sheet is walked by a reader that holds the lent bytes and the place reached."
// Few and thin: each takes the reader apart, and the work is that of a function on slice and place.
ghost use Rattle.std.specs.Prelude.{◌≡◌, ◌≤◌, length};
ghost use Rattle.sheet.specs.paper.Shape.{end_at};
ghost use Rattle.shaping.specs.Fields.{field_at};

use crate::fields::{Front, field_at, field_end};

#[derive(Clone, Copy)]
pub struct Reader<'a> {
    pub sheet: &'a [u8],
    pub at: usize,
}

// A reader at the front of the bytes.
pub fn begin<'a>(sheet: &'a [u8]) -> Reader<'a>
    ensures { (result.sheet ≡ sheet.entry) × (result.at ≡ 0) }
{
    Reader { sheet, at: 0 }
}

// The tag and the value's length of the field that the reader stands at.
pub fn tell<'a>(r: Reader<'a>) -> Option<Front>
    requires { r.at ≤ length r.sheet.now }
    ensures { result ≡ field_at r.entry.sheet.now r.entry.at }
{
    field_at(r.sheet, r.at)
}

// The reader behind the field that it stood at.
pub fn move_on<'a>(r: Reader<'a>) -> Reader<'a>
    requires { end_at r.sheet.now r.at ≤ length r.sheet.now }
    ensures { (result.sheet ≡ r.entry.sheet) × (result.at ≡ end_at r.entry.sheet.now r.entry.at) }
{
    let next = field_end(r.sheet, r.at);
    Reader {
        sheet: r.sheet,
        at: next,
    }
}
