// The ruling on one field of a table, rule by rule in the paper's order.
ghost use Rattle.std.specs.Prelude.{◌≡◌, ◌+◌, ◌≤◌, length, Ok};
ghost use Rattle.drawing.specs.paper.Bytes.{length_at, value_at};
ghost use Rattle.drawing.specs.paper.Limits.{most_k};
ghost use Rattle.drawing.specs.Forms.{Formed};
ghost use Rattle.drawing.specs.paper.Rules.{first};
ghost use Rattle.drawing.specs.paper.Fields.{frame_rules, head_rules, head_ruling, gate_rules, gate_verdict, output_rules, output_verdict};

use crate::bytes::{byte_at, full_table, ids_below, length_at, number_at, small_at};
use crate::limits::{
    FRAME, GATES_AT, INPUTS_AT, K_AT, LEAST_INPUTS, LEAST_K, MOST_INPUTS, MOST_K, NO_FANINS,
    ROWS_SIZE, VERSION, VERSION_AT,
};
use crate::{Refusal, TableForm};
use storage::Numbers;

// The rules that every field begins with. `surplus`: the field would be an output too many.
pub fn frame(s: &[u8], at: usize, due: usize, surplus: bool) -> Result<(), Refusal>
    requires { at ≤ length s.now }
    ensures { result ≡ first (Ok tt) (frame_rules s.now at due surplus) }
{
    if s.len() - at < FRAME {
        return Err(Refusal::Torn(at));
    }
    if byte_at(s, at) != due {
        return Err(Refusal::Tag(at));
    }
    if surplus {
        return Err(Refusal::Outputs(at));
    }
    if s.len() - (at + FRAME) < length_at(s, at) {
        return Err(Refusal::Torn(at));
    }
    Ok(())
}

// A head's value, once its frame is sound.
fn head_value(form: TableForm, s: &[u8]) -> Result<(), Refusal>
    requires formed { Formed form }
    requires s_in_bounds { value_at 0 + length_at s.now 0 ≤ length s.now }
    ensures { result ≡ first (Ok tt) (head_rules form s.now) }
{
    if length_at(s, 0) != form.size {
        return Err(Refusal::Length(0));
    }
    let k = byte_at(s, K_AT);
    let inputs = byte_at(s, INPUTS_AT);
    let nodes = inputs + small_at(s, GATES_AT, form.width);
    if byte_at(s, VERSION_AT) != VERSION
        || k < LEAST_K
        || MOST_K < k
        || inputs < LEAST_INPUTS
        || MOST_INPUTS < inputs
        || nodes < form.least
        || form.most < nodes
    {
        return Err(Refusal::Range(0));
    }
    Ok(())
}

pub fn head_ruling(form: TableForm, s: &[u8]) -> Result<(), Refusal>
    requires { Formed form }
    ensures { result ≡ head_ruling form s.now }
{
    frame(s, 0, form.head, false)?;
    head_value(form, s)
}

// A gate's value, once its frame is sound.
fn gate_value(form: TableForm, numbers: Numbers, s: &[u8], at: usize) -> Result<(), Refusal>
    requires formed { Formed form }
    requires leaves_le_most_k { numbers.k.leaves ≤ most_k }
    requires at_in_bounds { value_at at + length_at s.now at ≤ length s.now }
    ensures { result ≡ first (Ok tt) (gate_rules form s.now at numbers.k.leaves numbers.nodes) }
{
    let width = form.width;
    let size = length_at(s, at);
    if size < NO_FANINS + width || NO_FANINS + MOST_K * width < size {
        return Err(Refusal::Length(at));
    }
    let m = byte_at(s, at + FRAME);
    if size != NO_FANINS + m * width {
        return Err(Refusal::Length(at));
    }
    if (numbers.k.leaves as usize) < m || !ids_below(s, at + FRAME + 1, width, m, numbers.nodes) {
        return Err(Refusal::Range(at));
    }
    if full_table(m) < number_at(s, at + FRAME + 1 + m * width, ROWS_SIZE) {
        return Err(Refusal::Rows(at));
    }
    Ok(())
}

pub fn gate_ruling(form: TableForm, numbers: Numbers, s: &[u8], at: usize) -> Result<(), Refusal>
    requires formed { Formed form }
    requires leaves_le_most_k { numbers.k.leaves ≤ most_k }
    requires at_in_bounds { at ≤ length s.now }
    ensures { result ≡ gate_verdict form s.now at numbers.k.leaves numbers.nodes }
{
    frame(s, at, form.gate, false)?;
    gate_value(form, numbers, s, at)
}

// An output's value, once its frame is sound.
fn output_value(form: TableForm, s: &[u8], at: usize, nodes: usize) -> Result<(), Refusal>
    requires formed { Formed form }
    requires at_in_bounds { value_at at + length_at s.now at ≤ length s.now }
    ensures { result ≡ first (Ok tt) (output_rules form s.now at nodes) }
{
    if length_at(s, at) != form.width {
        return Err(Refusal::Length(at));
    }
    if nodes <= small_at(s, at + FRAME, form.width) {
        return Err(Refusal::Range(at));
    }
    Ok(())
}

// `room`: how many more outputs may follow.
pub fn output_ruling(
    form: TableForm,
    s: &[u8],
    at: usize,
    room: usize,
    nodes: usize,
) -> Result<(), Refusal>
    requires formed { Formed form }
    requires at_in_bounds { at ≤ length s.now }
    ensures { result ≡ output_verdict form s.now at room nodes }
{
    frame(s, at, form.output, room == 0)?;
    output_value(form, s, at, nodes)
}
