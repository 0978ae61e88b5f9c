// Pass one from field to field: the head, the gates' lines, the LUTs, and that nothing follows them.
ghost use Rattle.std.specs.Prelude.{◌≡◌, ◌<◌, ◌≤◌};
ghost use Rattle.sheet.specs.paper.Shape.{reading};
ghost use Rattle.shaping.specs.Terms.{due_of};
ghost use Rattle.shaping.specs.Fields.{field_at};
ghost use Rattle.shaping.specs.Runs.{GoesOn, Turned, FieldJudged};

use crate::fields::{Front, head_ruling, line_ruling, lut_ruling};
use crate::numbers::node_at;
use crate::terms::Terms;
use drawing::bytes::small_at;
use drawing::limits::FRAME;
use sheet::Fault;
use sheet::limits::DEPTH_AT;

// The lines and LUTs that are still due, and the lowest root that may follow.
#[derive(Clone, Copy)]
pub struct Left {
    pub lines: usize,
    pub luts: usize,
    pub least: usize,
}

// What is due behind the head.
pub fn head_turn(terms: Terms, sheet: &[u8], field: Option<Front>) -> Result<Left, Fault>
    requires { field ≡ field_at sheet.now 0 }
    ensures { GoesOn (due_of terms) sheet.now 0 (reading (due_of terms) sheet.now).ruling result }
{
    head_ruling(terms, sheet, field)?;
    let width = terms.form.width;
    let luts = small_at(sheet, DEPTH_AT + width, width);
    Ok(Left {
        lines: terms.numbers.nodes - terms.numbers.inputs,
        luts,
        least: terms.numbers.inputs,
    })
}

// What is due behind a gate's line.
fn line_turn(
    terms: Terms,
    sheet: &[u8],
    at: usize,
    field: Option<Front>,
    left: Left,
) -> Result<Left, Fault>
    requires field_value { field ≡ field_at sheet.now at }
    requires lines_nonzero { 0 < left.lines }
    ensures { Turned (due_of terms) sheet.now at left result }
{
    line_ruling(terms, sheet, at, field)?;
    Ok(Left {
        lines: left.lines - 1,
        luts: left.luts,
        least: left.least,
    })
}

// What is due behind a LUT.
fn lut_turn(
    terms: Terms,
    sheet: &[u8],
    at: usize,
    field: Option<Front>,
    left: Left,
) -> Result<Left, Fault>
    requires field_value { field ≡ field_at sheet.now at }
    requires lines_bound { left.lines ≤ 0 }
    requires luts_nonzero { 0 < left.luts }
    ensures { Turned (due_of terms) sheet.now at left result }
{
    lut_ruling(terms, left.least, sheet, at, field)?;
    let root = node_at(terms, sheet, at + FRAME);
    Ok(Left {
        lines: left.lines,
        luts: left.luts - 1,
        least: root.id as usize + 1,
    })
}

// What is due behind the field at `at`; none where no field is due, and none stands.
pub fn judge_field(
    terms: Terms,
    sheet: &[u8],
    at: usize,
    field: Option<Front>,
    left: Left,
) -> Result<Option<Left>, Fault>
    requires { field ≡ field_at sheet.now at }
    ensures { FieldJudged (due_of terms) sheet.now at left result }
{
    if 0 < left.lines {
        return Ok(Some(line_turn(terms, sheet, at, field, left)?));
    }
    if 0 < left.luts {
        return Ok(Some(lut_turn(terms, sheet, at, field, left)?));
    }
    if at < sheet.len() {
        return Err(Fault::Extra(at));
    }
    Ok(None)
}
