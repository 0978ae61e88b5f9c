// The arrays that a reading fills, and the loops that fill them.
ghost use Rattle.std.specs.Prelude.{◌≡◌, ◌+◌, ◌*◌, ◌≤◌, ◌<◌, length};
ghost use Rattle.std.proofs.lemmas.List.Edits.{sets};
ghost use Rattle.drawing.specs.paper.Limits.{most_outputs};
ghost use Rattle.drawing.specs.paper.Bytes.{ids_at};
ghost use Rattle.drawing.specs.Bytes.{Narrow};
ghost use Rattle.drawing.specs.paper.Forms.{gates_start};
ghost use Rattle.drawing.specs.Forms.{Formed};
ghost use Rattle.drawing.specs.paper.Reading.{outputs_at};
ghost use Rattle.drawing.specs.Reading.{lines_of, no_fanins, put_gate};
ghost use Rattle.drawing.specs.paper.Fields.{gate_at};
ghost use Rattle.drawing.specs.Filling.{GateFits, GateTurn, GateRead, GatesFit, GatesRead, OutputsRead};

use crate::bytes::{byte_at, length_at, number_at, small_at};
use crate::fields::{gate_ruling, output_ruling};
use crate::limits::{FRAME, MOST_OUTPUTS, ROWS_SIZE};
use crate::{Refusal, TableForm};
use storage::lists::{PLACES, put_size};
use storage::{CutSize, Node, Numbers};

// Stores the `count` ids from `at` on, from place `to` on.
fn put_ids(s: &[u8], at: usize, width: usize, count: usize, ids: &mut [u16], to: usize)
    requires narrow { Narrow width }
    requires width_in_bounds { at + count * width ≤ length s.now }
    requires count_in_bounds { to + count ≤ length ids.old }
    ensures { ids.new ≡ sets ids.old to (ids_at s.now at width count) }
{
    for i in 0..count {
        ids[to + i] = small_at(s, at + i * width, width) as u16;
    }
}

// An input has no fanins.
pub fn put_inputs(fanins: &mut [u16], inputs: usize)
    requires { 7 * inputs ≤ length fanins.old }
    ensures { fanins.new ≡ no_fanins fanins.old inputs }
{
    for v in 0..inputs {
        fanins[PLACES * v] = 0;
    }
}

// Stores the line of the gate at `at`.
fn put_gate(form: TableForm, s: &[u8], at: usize, gate: Node, fanins: &mut [u16], rows: &mut [u64])
    requires { GateFits form s.now at gate.id (lines_of fanins.old rows.old) }
    ensures { lines_of fanins.new rows.new ≡
        put_gate (lines_of fanins.old rows.old) gate.id (gate_at form s.now at) }
{
    let v = gate.id as usize;
    let width = form.width;
    let m = byte_at(s, at + FRAME);
    put_size(fanins, gate, CutSize { leaves: m as u8 });
    put_ids(s, at + FRAME + 1, width, m, fanins, PLACES * v + 1);
    rows[v] = number_at(s, at + FRAME + 1 + m * width, ROWS_SIZE);
}

// Reads the gate at `at`: stores its line, and answers where the next field starts.
fn read_gate(
    form: TableForm,
    numbers: Numbers,
    s: &[u8],
    at: usize,
    gate: Node,
    fanins: &mut [u16],
    rows: &mut [u64],
) -> Result<usize, Refusal>
    requires { GateTurn form s.now at numbers.k.leaves gate.id (lines_of fanins.old rows.old) }
    ensures { GateRead form (lines_of fanins.old rows.old) s.now
        at numbers.k.leaves numbers.nodes gate.id result (lines_of fanins.new rows.new) }
{
    gate_ruling(form, numbers, s, at)?;
    put_gate(form, s, at, gate, fanins, rows);
    Ok(at + FRAME + length_at(s, at))
}

// Reads the gates, the nodes from `numbers.inputs` on, and answers where they end.
pub fn read_gates(
    form: TableForm,
    numbers: Numbers,
    s: &[u8],
    fanins: &mut [u16],
    rows: &mut [u64],
) -> Result<usize, Refusal>
    requires { GatesFit form s.now numbers.k.leaves numbers.inputs numbers.nodes (lines_of fanins.old rows.old) }
    ensures { GatesRead form (lines_of fanins.old rows.old) s.now
        numbers.k.leaves numbers.nodes numbers.inputs (gates_start form) result (lines_of fanins.new rows.new) }
{
    let mut at = FRAME + form.size;
    for v in numbers.inputs..numbers.nodes {
        at = read_gate(form, numbers, s, at, Node { id: v as u16 }, fanins, rows)?;
    }
    Ok(at)
}

// Reads the outputs from `start` to the end of the bytes, and answers how many there are.
pub fn read_outputs(
    form: TableForm,
    s: &[u8],
    start: usize,
    nodes: usize,
    outputs: &mut [u16],
) -> Result<usize, Refusal>
    requires formed { Formed form }
    requires start_in_bounds { start ≤ length s.now }
    requires most_outputs_in_bounds { most_outputs ≤ length outputs.old }
    ensures { OutputsRead outputs.old 0 (outputs_at form s.now nodes start) result outputs.new }
{
    if start == s.len() {
        return Err(Refusal::Outputs(start));
    }
    let width = form.width;
    let mut at = start;
    // the walk goes by fields to the end of the bytes, so how many it meets is known at its end
    let mut i: usize = 0;
    while at < s.len() {
        output_ruling(form, s, at, MOST_OUTPUTS - i, nodes)?;
        outputs[i] = small_at(s, at + FRAME, width) as u16;
        at = at + FRAME + width;
        i += 1;
    }
    Ok(i)
}
