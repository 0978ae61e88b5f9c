// Bytes and numbers at a place of a buffer. Each function answers the next place.
ghost use Rattle.std.specs.Prelude.{◌+◌, ◌≤◌, length};
ghost use Rattle.drawing.specs.paper.Bytes.{value_at};
ghost use Rattle.sheet.specs.paper.Encoding.{digits, id_bytes, leaves_bytes};
ghost use Rattle.sheet.specs.Writing.{Room, Written, Closed, opened};

use crate::limits::COUNT_SIZE;
use drawing::limits::{FRAME, LENGTH_SIZE};

// A number in `width` bytes, high byte first. The low byte is stored first, at the last place.
pub fn put_number(sheet: &mut [u8], at: usize, number: u64, width: usize) -> usize
    requires { Room sheet.old at (digits width number) }
    ensures { Written sheet.old at (digits width number) sheet.new result }
{
    let mut rest = number;
    for place in (0..width).rev() {
        sheet[at + place] = (rest % 256) as u8;
        rest /= 256;
    }
    at + width
}

// Ids, one behind the other.
pub fn put_ids(sheet: &mut [u8], at: usize, ids: &[u16], width: usize) -> usize
    requires { Room sheet.old at (id_bytes width ids.now) }
    ensures { Written sheet.old at (id_bytes width ids.now) sheet.new result }
{
    let mut next = at;
    for &id in ids {
        next = put_number(sheet, next, id as u64, width);
    }
    next
}

// A cut: how many leaves, and the leaves.
pub fn put_leaves(sheet: &mut [u8], at: usize, leaves: &[u16], width: usize) -> usize
    requires { Room sheet.old at (leaves_bytes width leaves.now) }
    ensures { Written sheet.old at (leaves_bytes width leaves.now) sheet.new result }
{
    let ids_at = put_number(sheet, at, leaves.len() as u64, COUNT_SIZE);
    put_ids(sheet, ids_at, leaves, width)
}

// A field's tag, and room for its length.
pub fn open_field(sheet: &mut [u8], at: usize, tag: u8) -> usize
    requires { Room sheet.old at (opened tag) }
    ensures { Written sheet.old at (opened tag) sheet.new result }
{
    sheet[at] = tag;
    sheet[at + 1] = 0;
    sheet[at + 2] = 0;
    at + FRAME
}

// Stores the length of the field at `at`, whose value ends at `next`.
pub fn close_field(sheet: &mut [u8], at: usize, next: usize) -> usize
    requires at_bound { value_at at ≤ next }
    requires next_in_bounds { next ≤ length sheet.old }
    ensures { Closed sheet.old at next sheet.new result }
{
    put_number(sheet, at + 1, (next - (at + FRAME)) as u64, LENGTH_SIZE);
    next
}
