// The bytes of a mapping sheet, written into a buffer that the caller lends.
#![tactic(auto)]

pub mod bytes;
pub mod faults;
pub mod limits;

ghost use Rattle.std.specs.Prelude.{◌≡◌, ◌+◌, ◌≤◌, length};
ghost use Rattle.drawing.specs.paper.Bytes.{value_at};
ghost use Rattle.sheet.specs.paper.Sheet.{lut_of};
ghost use Rattle.sheet.specs.paper.Encoding.{narrow, head_field, path_bytes, lut_field};
ghost use Rattle.sheet.specs.Writing.{Room, Written, Closed, line_begun};

use crate::limits::{COUNT_SIZE, HEAD, LINE, LUT, VERSION_SIZE};
use drawing::limits::{ID_SIZE, ROWS_SIZE, VERSION};
use storage::{Label, Node};

// The tags of a sheet's fields, and in how many bytes it writes an id; depths, labels, LUT counts and path lengths are as wide.
#[derive(Clone, Copy)]
pub struct Form {
    pub width: usize,
    pub head: u8,
    pub line: u8,
    pub lut: u8,
}

// What the shape of a sheet is refused for, with the place that the refusal names.
#[derive(Clone, Copy)]
pub enum Fault {
    Torn(usize),
    Tag(usize),
    Length(usize),
    Range(usize),
    Extra(usize),
}

// The paper's form: ids of one byte.
pub fn narrow_form() -> Form
    ensures { result ≡ narrow }
{
    Form {
        width: ID_SIZE,
        head: HEAD,
        line: LINE,
        lut: LUT,
    }
}

// The head, at the front of the buffer.
pub fn put_head(form: Form, sheet: &mut [u8], depth: Label, luts: usize) -> usize
    requires { Room sheet.old 0 (head_field form depth.depth luts) }
    ensures { Written sheet.old 0 (head_field form depth.depth luts) sheet.new result }
{
    let width = form.width;
    let deep = depth.depth as u64;
    let number = luts as u64;
    let version_at = bytes::open_field(sheet, 0, form.head);
    let depth_at = bytes::put_number(sheet, version_at, VERSION as u64, VERSION_SIZE);
    let luts_at = bytes::put_number(sheet, depth_at, deep, width);
    let next = bytes::put_number(sheet, luts_at, number, width);
    bytes::close_field(sheet, 0, next)
}

// A gate's line up to its paths, of which `paths` are to follow.
pub fn begin_line(
    form: Form,
    sheet: &mut [u8],
    at: usize,
    label: Label,
    leaves: &[u16],
    paths: usize,
) -> usize
    requires { Room sheet.old at (line_begun form label.depth leaves.now paths) }
    ensures { Written sheet.old at (line_begun form label.depth leaves.now paths) sheet.new result }
{
    let width = form.width;
    let label_at = bytes::open_field(sheet, at, form.line);
    let leaves_at = bytes::put_number(sheet, label_at, label.depth as u64, width);
    let paths_at = bytes::put_leaves(sheet, leaves_at, leaves, width);
    bytes::put_number(sheet, paths_at, paths as u64, COUNT_SIZE)
}

// One path of a line.
pub fn put_path(form: Form, sheet: &mut [u8], at: usize, path: &[u16]) -> usize
    requires { Room sheet.old at (path_bytes form.width path.now) }
    ensures { Written sheet.old at (path_bytes form.width path.now) sheet.new result }
{
    let width = form.width;
    let ids_at = bytes::put_number(sheet, at, path.len() as u64, width);
    bytes::put_ids(sheet, ids_at, path, width)
}

// Stores the length of the line begun at `at`, whose last path ends at `next`.
pub fn end_line(sheet: &mut [u8], at: usize, next: usize) -> usize
    requires at_bound { value_at at ≤ next }
    requires next_in_bounds { next ≤ length sheet.old }
    ensures { Closed sheet.old at next sheet.new result }
{
    bytes::close_field(sheet, at, next)
}

// A LUT.
pub fn put_lut(
    form: Form,
    sheet: &mut [u8],
    at: usize,
    root: Node,
    leaves: &[u16],
    table: u64,
) -> usize
    requires { Room sheet.old at (lut_field form (lut_of root.id leaves.now table)) }
    ensures { Written sheet.old at (lut_field form (lut_of root.id leaves.now table)) sheet.new result }
{
    let width = form.width;
    let root_at = bytes::open_field(sheet, at, form.lut);
    let leaves_at = bytes::put_number(sheet, root_at, root.id as u64, width);
    let table_at = bytes::put_leaves(sheet, leaves_at, leaves, width);
    let next = bytes::put_number(sheet, table_at, table, ROWS_SIZE);
    bytes::close_field(sheet, at, next)
}
