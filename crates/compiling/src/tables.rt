// The gate table of a text that was read, from the arrays that its reader left; and what becomes of its bytes.
ghost use Rattle.std.specs.Prelude.{◌≤◌, length};
ghost use Rattle.compiling.specs.paper.Compiles.{table_room};
ghost use Rattle.compiling.specs.Stages.{Ready, GateAsked, GateWritten, GatesWritten, OutputsAsked, OutputsWritten, TableWritten, TableHere, Stores, JudgedBytes};

use crate::{CompileError, TABLE_ROOM};
use drawing::limits::{MOST_NODES, MOST_OUTPUTS, MOST_PLACES};
use naming::Equations;
use naming::arrays::{left_at, place_at, right_at, table_at};
use naming::nodes::{node_of, operand_node};
use storage::{CutSize, Numbers};
use tabling::{put_gate, put_output, put_table_head};
use taking::{TakeError, take_table};

// One gate, its operands' nodes looked up.
fn write_gate(equations: Equations, gate: usize, table: &mut [u8], at: usize) -> usize
    requires { GateAsked equations.text.now equations.gates.now gate equations.names.now equations.counts.definitions equations.counts.inputs
        table.old at }
    ensures { GateWritten equations.entry.text.now equations.entry.gates.now gate equations.entry.names.now equations.entry.counts.definitions
        equations.entry.counts.inputs table.old at table.new result }
{
    let left = operand_node(equations, left_at(equations.gates, gate));
    let right = operand_node(equations, right_at(equations.gates, gate));
    let rows = table_at(equations.gates, gate);
    put_gate(table, at, left, right, rows as u64)
}

// All gates, behind the head.
fn write_gates(equations: Equations, k: CutSize, table: &mut [u8]) -> usize
    requires ready { Ready equations.text.now k.leaves equations.gates.now equations.names.now equations.counts }
    requires table_room_in_bounds { table_room ≤ length table.old }
    ensures { GatesWritten equations.entry.text.now k.leaves equations.entry.gates.now equations.entry.names.now equations.entry.counts
        table.old table.new result }
{
    let counts = equations.counts;
    let mut at = put_table_head(table, k, counts.inputs, counts.gates);
    for gate in 0..counts.gates {
        at = write_gate(equations, gate, table, at);
    }
    at
}

// All outputs, from `start` on.
fn write_outputs(equations: Equations, table: &mut [u8], start: usize) -> usize
    requires { OutputsAsked equations.text.now equations.names.now equations.counts table.old start }
    ensures { OutputsWritten equations.entry.text.now equations.entry.names.now equations.entry.counts table.old start table.new result }
{
    let counts = equations.counts;
    let mut at = start;
    for i in 0..counts.outputs {
        let node = node_of(equations, place_at(equations.names, counts.definitions + i));
        at = put_output(table, at, node);
    }
    at
}

// The whole table at the front of a buffer.
pub fn write_table(equations: Equations, k: CutSize, table: &mut [u8]) -> usize
    requires ready { Ready equations.text.now k.leaves equations.gates.now equations.names.now equations.counts }
    requires table_room_in_bounds { table_room ≤ length table.old }
    ensures { TableWritten equations.entry.text.now k.leaves equations.entry.gates.now equations.entry.names.now equations.entry.counts
        table.old table.new result }
{
    let start = write_gates(equations, k, table);
    write_outputs(equations, table, start)
}

// Taken, or refused for a loop: the table's gates are put in order, in arrays of its own.
fn judge(written: &[u8]) -> Result<Numbers, TakeError>
    ensures { JudgedBytes written.now result }
{
    let mut fanins = [0u16; MOST_PLACES];
    let mut rows = [0u64; MOST_NODES];
    let mut outputs = [0u16; MOST_OUTPUTS];
    let mut order = [0u16; MOST_NODES];
    let mut marks = [0u8; MOST_NODES];
    take_table(
        written,
        &mut fanins,
        &mut rows,
        &mut outputs,
        &mut order,
        &mut marks,
    )
}

// 7, then 8; else the table goes to the caller.
pub fn store_table(written: &[u8], table: &mut [u8]) -> Result<usize, CompileError>
    requires { TableHere written.now }
    ensures { Stores written.now table.old result table.new }
{
    judge(written)?;
    if table.len() < TABLE_ROOM {
        return Err(CompileError::Room);
    }
    let length = written.len();
    table[..length].copy_from_slice(written);
    Ok(length)
}
