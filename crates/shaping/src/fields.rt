// The ruling on one field of a sheet, rule by rule in the paper's order.
ghost use Rattle.std.specs.Prelude.{◌≡◌, false, not, ◌||◌, ◌+◌, ◌≤◌, length, eqb};
ghost use Rattle.drawing.specs.paper.Rules.{first};
ghost use Rattle.sheet.specs.paper.Limits.{depth_place};
ghost use Rattle.sheet.specs.paper.Shape.{field_rules, end_at, head_ruling, line_range, line_at, line_length_wrong, line_ruling, lut_range, lut_at, lut_length_wrong, lut_ruling};
ghost use Rattle.shaping.specs.Terms.{due_of};
ghost use Rattle.shaping.specs.Fields.{field_at, head_out_of_range};

use crate::numbers::{label_at, leaves_in_range, node_at, size_at};
use crate::paths::{paths_in_range, paths_use};
use crate::terms::Terms;
use drawing::bytes::{byte_at, length_at, small_at};
use drawing::limits::{FRAME, ROWS_SIZE, VERSION, VERSION_AT};
use sheet::Fault;
use sheet::limits::{COUNT_SIZE, DEPTH_AT, VERSION_SIZE};
use storage::CutSize;

// What stands at the front of a field: its tag, and how long its value is.
#[derive(Clone, Copy)]
pub struct Front {
    pub tag: usize,
    pub size: usize,
}

// The front of the field at `at`: none where too few bytes are left for it.
pub fn field_at(sheet: &[u8], at: usize) -> Option<Front>
    requires { at ≤ length sheet.now }
    ensures { result ≡ field_at sheet.now at }
{
    if sheet.len() - at < FRAME {
        return None;
    }
    Some(Front {
        tag: byte_at(sheet, at),
        size: length_at(sheet, at),
    })
}

// The rules that every field begins with.
fn frame(sheet: &[u8], at: usize, field: Option<Front>, tag: u8) -> Result<(), Fault>
    requires { field ≡ field_at sheet.now at }
    ensures { result ≡ first (Ok tt) (field_rules sheet.now at tag false false) }
{
    let front = field.ok_or(Fault::Torn(at))?;
    if front.tag != tag as usize {
        return Err(Fault::Tag(at));
    }
    if sheet.len() - (at + FRAME) < front.size {
        return Err(Fault::Torn(at));
    }
    Ok(())
}

// Where the field at `at` ends.
pub fn field_end(sheet: &[u8], at: usize) -> usize
    requires { end_at sheet.now at ≤ length sheet.now }
    ensures { result ≡ end_at sheet.now at }
{
    at + FRAME + length_at(sheet, at)
}

fn head_in_range(terms: Terms, sheet: &[u8]) -> bool
    requires { depth_place + terms.form.width + terms.form.width ≤ length sheet.now }
    ensures { result ≡ not (head_out_of_range (due_of terms) sheet.now) }
{
    let width = terms.form.width;
    small_at(sheet, VERSION_AT, VERSION_SIZE) == VERSION
        && label_at(terms, sheet, DEPTH_AT).depth <= terms.most.depth
        && small_at(sheet, DEPTH_AT + width, width) <= terms.numbers.nodes - terms.numbers.inputs
}

pub fn head_ruling(terms: Terms, sheet: &[u8], field: Option<Front>) -> Result<(), Fault>
    requires { field ≡ field_at sheet.now 0 }
    ensures { result ≡ head_ruling (due_of terms) sheet.now }
{
    frame(sheet, 0, field, terms.form.head)?;
    let width = terms.form.width;
    if length_at(sheet, 0) != VERSION_SIZE + width + width {
        return Err(Fault::Length(0));
    }
    if !head_in_range(terms, sheet) {
        return Err(Fault::Range(0));
    }
    Ok(())
}

// Do the counts of the line at `at` use its value up exactly?
fn line_uses(terms: Terms, sheet: &[u8], at: usize) -> bool
    requires { end_at sheet.now at ≤ length sheet.now }
    ensures { result ≡ not (line_length_wrong (due_of terms) sheet.now at) }
{
    let width = terms.form.width;
    let size = length_at(sheet, at);
    if size < width + COUNT_SIZE {
        return false;
    }
    let leaves = size_at(sheet, at + FRAME + width).leaves as usize;
    let before = width + COUNT_SIZE + leaves * width;
    if size < before + COUNT_SIZE {
        return false;
    }
    let count = small_at(sheet, at + FRAME + before, COUNT_SIZE);
    paths_use(
        terms,
        sheet,
        at + FRAME + before + COUNT_SIZE,
        count,
        at + FRAME + size,
    )
}

// "q is K + 1 where evidence is due, else 0"
fn is_path_count(count: usize, k: CutSize) -> bool
    ensures { result ≡ (eqb count 0 || eqb count (k.leaves + 1)) }
{
    count == 0 || count == k.leaves as usize + 1
}

fn line_in_range(terms: Terms, sheet: &[u8], at: usize) -> bool
    requires at_in_bounds { end_at sheet.now at ≤ length sheet.now }
    requires at_value { line_length_wrong (due_of terms) sheet.now at ≡ false }
    ensures { result ≡ not (line_range (due_of terms) (line_at (due_of terms) sheet.now at)) }
{
    let width = terms.form.width;
    let label = label_at(terms, sheet, at + FRAME);
    if label.depth < 1 {
        return false;
    }
    if terms.most.depth < label.depth {
        return false;
    }
    let cut = at + FRAME + width;
    if !leaves_in_range(terms, sheet, cut) {
        return false;
    }
    let leaves = size_at(sheet, cut).leaves as usize;
    let paths = cut + COUNT_SIZE + leaves * width;
    let count = small_at(sheet, paths, COUNT_SIZE);
    if !is_path_count(count, terms.numbers.k) {
        return false;
    }
    paths_in_range(terms, sheet, paths + COUNT_SIZE, count)
}

pub fn line_ruling(terms: Terms, sheet: &[u8], at: usize, field: Option<Front>) -> Result<(), Fault>
    requires { field ≡ field_at sheet.now at }
    ensures { result ≡ line_ruling (due_of terms) sheet.now at }
{
    frame(sheet, at, field, terms.form.line)?;
    if !line_uses(terms, sheet, at) {
        return Err(Fault::Length(at));
    }
    if !line_in_range(terms, sheet, at) {
        return Err(Fault::Range(at));
    }
    Ok(())
}

// Do the counts of the LUT at `at` use its value up exactly? What it shares with `line_uses` are two lines, which no function says plainer.
fn lut_uses(terms: Terms, sheet: &[u8], at: usize) -> bool
    requires { end_at sheet.now at ≤ length sheet.now }
    ensures { result ≡ not (lut_length_wrong (due_of terms) sheet.now at) }
{
    let width = terms.form.width;
    let size = length_at(sheet, at);
    if size < width + COUNT_SIZE {
        return false;
    }
    let leaves = size_at(sheet, at + FRAME + width).leaves as usize;
    width + COUNT_SIZE + leaves * width + ROWS_SIZE == size
}

fn lut_in_range(terms: Terms, least: usize, sheet: &[u8], at: usize) -> bool
    requires at_in_bounds { end_at sheet.now at ≤ length sheet.now }
    requires at_value { lut_length_wrong (due_of terms) sheet.now at ≡ false }
    ensures { result ≡ not (lut_range (due_of terms) least (lut_at (due_of terms) sheet.now at)) }
{
    let width = terms.form.width;
    let root = node_at(terms, sheet, at + FRAME).id as usize;
    least <= root && root < terms.numbers.nodes && leaves_in_range(terms, sheet, at + FRAME + width)
}

// `least`: the lowest root that may follow.
// Not one function with `line_ruling`: its two tests, as closures, would each bring to the contract what they ask, which is no plainer.
pub fn lut_ruling(
    terms: Terms,
    least: usize,
    sheet: &[u8],
    at: usize,
    field: Option<Front>,
) -> Result<(), Fault>
    requires { field ≡ field_at sheet.now at }
    ensures { result ≡ lut_ruling (due_of terms) sheet.now least at }
{
    frame(sheet, at, field, terms.form.lut)?;
    if !lut_uses(terms, sheet, at) {
        return Err(Fault::Length(at));
    }
    if !lut_in_range(terms, least, sheet, at) {
        return Err(Fault::Range(at));
    }
    Ok(())
}
