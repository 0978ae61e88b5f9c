// The function of a cone, as a table. The gates are evaluated along the order, once a row, into a word a node: a gate's value is 0 or 1,
// a leaf's 2 or 3, so that the pass along the order knows what it must not compute.
ghost use Rattle.std.specs.Prelude.{◌≡◌, map, ◌+◌, ◌*◌, ◌^◌, ◌≤◌, ◌<◌, length, take, drop};
ghost use Rattle.storage.specs.Lists.{Place};
ghost use Rattle.theory.specs.paper.Values.{bit, row_of, result_at};
ghost use Rattle.covering.specs.Cones.{ConeAsked, ConeAnswered, value_in, RowFits, GateFits, GateSettled, SweepFits, Swept, LeavesFit, LeavesSet, FirstPlace};

use storage::lists::{PLACES, node_at, size_at};
use storage::{Net, Node, fill};

// The result of a table at a row.
fn result_at(table: u64, row: u64) -> u64
    requires { row < 64 }
    ensures { result ≡ bit (result_at table row) }
{
    (table >> row) % 2
}

// The table with one row more.
fn with_row(table: u64, row: u64, res: u64) -> u64
    requires row_bound { row < 64 }
    requires table_bound { table < 2 ^ row }
    requires res_bound { res < 2 }
    ensures { result ≡ res * 2 ^ row + table }
{
    (res << row) + table
}

fn rows_of(leaves: usize) -> u64
    requires { leaves ≤ 6 }
    ensures { result ≡ 2 ^ leaves }
{
    1u64 << leaves
}

// The row that the values of the `many` nodes from place `at` on make. (Hot: a place and a number, so that the loop is laid out where it is called.)
fn row_of(ids: &[u16], at: usize, many: usize, values: &[u64]) -> u64
    requires { RowFits ids.now at many (length values.now) }
    ensures { result ≡ row_of (map (value_in values.now) (take many (drop at ids.now))) }
{
    let mut row = 0u64;
    for i in (0..many).rev() {
        row = 2 * row + values[ids[at + i] as usize] % 2;
    }
    row
}

// The leaves get the bits of the row.
fn set_leaves(leaves: &[u16], row: u64, values: &mut [u64])
    requires { LeavesFit leaves.now (length values.old) }
    ensures { LeavesSet leaves.now (length leaves.now) row values.old values.new }
{
    for (i, leaf) in leaves.iter().enumerate() {
        values[*leaf as usize] = 2 + result_at(row, i as u64);
    }
}

// Where the gate stands in the order.
fn place_of(order: &[u16], gate: Node) -> usize
    requires { Place gate.id order.now }
    ensures { FirstPlace order.now gate.id result }
{
    let id = gate.id;
    order.iter().position(|&v| v == id).unwrap()
}

// The gate's value is stored, unless the gate is a leaf. Its places are lent as a slice of their own, so that they are found once; the
// remainder is the size itself, and shows the compiler that the loop over the fanins is short enough to be laid out in full.
fn settle_gate(fanins: &[u16], rows: &[u64], gate: Node, values: &mut [u64])
    requires { GateFits fanins.now rows.now gate.id (length values.old) }
    ensures { GateSettled fanins.now rows.now gate.id values.old values.new }
{
    let v = gate.id as usize;
    if values[v] < 2 {
        let at = PLACES * v;
        let row = row_of(&fanins[at..], 1, size_at(fanins, gate) % 8, values);
        values[v] = result_at(rows[v], row);
    }
}

// The gates among the first `upto` of the order that are no leaves get their values: one pass, so that no gate is computed twice.
fn sweep(fanins: &[u16], rows: &[u64], order: &[u16], upto: usize, values: &mut [u64])
    requires { SweepFits fanins.now rows.now order.now upto (length values.old) }
    ensures { Swept fanins.now rows.now order.now upto values.old
        values.new }
{
    for i in 0..upto {
        settle_gate(fanins, rows, node_at(order, i), values);
    }
}

// The table of the cone of `gate` over the leaves, row by row; gates that come after `gate` in the order are not computed.
// Whatever the values held, their first `nodes` words are left at 0. (A word a node is room for all rows at once.)
pub fn cone_table(net: Net, rows: &[u64], gate: Node, leaves: &[u16], values: &mut [u64]) -> u64
    requires { ConeAsked net.numbers.inputs net.numbers.nodes net.numbers.k.leaves net.fanins.now rows.now net.order.now gate.id
        leaves.now (length values.old) }
    ensures { ConeAnswered net.entry.numbers.inputs net.entry.numbers.nodes net.entry.fanins.now rows.now gate.id
        leaves.now values.old result values.new }
{
    fill(values, net.numbers.nodes, 0);
    let upto = place_of(net.order, gate) + 1;
    let all = rows_of(leaves.len());
    let at = gate.id as usize;
    let mut table: u64 = 0;
    for row in 0..all {
        set_leaves(leaves, row, values);
        sweep(net.fanins, rows, net.order, upto, values);
        table = with_row(table, row, values[at] % 2);
    }
    fill(values, net.numbers.nodes, 0);
    table
}
