// The bytes of a gate table, written field by field into a buffer that the caller lends. Each function answers the next place.
#![tactic(auto)]

ghost use Rattle.std.specs.Prelude.{[], ◌∷◌};
ghost use Rattle.drawing.specs.paper.Forms.{narrow_table};
ghost use Rattle.sheet.specs.Writing.{Room, Written};
ghost use Rattle.tabling.specs.paper.Encoding.{head_field, gate_field, output_field};
ghost use Rattle.tabling.specs.Gates.{gate_of, gate_for};

use drawing::limits::{GATE, HEAD, ID_SIZE, OUTPUT, ROWS_SIZE, VERSION};
use sheet::bytes;
use sheet::limits::{COUNT_SIZE, VERSION_SIZE};
use storage::{CutSize, Node};

// How many function tables of one fanin there are.
const UNARY_TABLES: u64 = 4;

// The head, at the front of the buffer.
pub fn put_table_head(table: &mut [u8], k: CutSize, inputs: usize, gates: usize) -> usize
    requires { Room table.old 0 (head_field narrow_table k.leaves inputs gates) }
    ensures { Written table.old 0 (head_field narrow_table k.leaves inputs gates) table.new result }
{
    let version_at = bytes::open_field(table, 0, HEAD as u8);
    let k_at = bytes::put_number(table, version_at, VERSION as u64, VERSION_SIZE);
    let inputs_at = bytes::put_number(table, k_at, k.leaves as u64, COUNT_SIZE);
    let gates_at = bytes::put_number(table, inputs_at, inputs as u64, COUNT_SIZE);
    let next = bytes::put_number(table, gates_at, gates as u64, ID_SIZE);
    bytes::close_field(table, 0, next)
}

// A gate, by its fanins and its table.
pub fn put_gate_line(table: &mut [u8], at: usize, fanins: &[u16], rows: u64) -> usize
    requires { Room table.old at (gate_field narrow_table (gate_of fanins.now rows)) }
    ensures { Written table.old at (gate_field narrow_table (gate_of fanins.now rows)) table.new result }
{
    let count_at = bytes::open_field(table, at, GATE as u8);
    let fanins_at = bytes::put_number(table, count_at, fanins.len() as u64, COUNT_SIZE);
    let rows_at = bytes::put_ids(table, fanins_at, fanins, ID_SIZE);
    let next = bytes::put_number(table, rows_at, rows, ROWS_SIZE);
    bytes::close_field(table, at, next)
}

// A gate with one fanin.
pub fn put_unary(table: &mut [u8], at: usize, fanin: Node, rows: u64) -> usize
    requires { Room table.old at (gate_field narrow_table (gate_of (fanin.id ∷ []) rows)) }
    ensures { Written table.old at (gate_field narrow_table (gate_of (fanin.id ∷ []) rows)) table.new result }
{
    put_gate_line(table, at, &[fanin.id], rows)
}

// A gate with two fanins.
pub fn put_binary(table: &mut [u8], at: usize, left: Node, right: Node, rows: u64) -> usize
    requires { Room table.old at (gate_field narrow_table (gate_of (left.id ∷ right.id ∷ []) rows)) }
    ensures { Written table.old at (gate_field narrow_table (gate_of (left.id ∷ right.id ∷ []) rows)) table.new result }
{
    let fanins = [left.id, right.id];
    put_gate_line(table, at, &fanins, rows)
}

// A gate whose table tells how many fanins it has: one where the table is one of one fanin. Then `right` is not looked at.
pub fn put_gate(table: &mut [u8], at: usize, left: Node, right: Node, rows: u64) -> usize
    requires { Room table.old at (gate_field narrow_table (gate_for left.id right.id rows)) }
    ensures { Written table.old at (gate_field narrow_table (gate_for left.id right.id rows)) table.new result }
{
    if rows < UNARY_TABLES {
        put_gate_line(table, at, &[left.id], rows)
    } else {
        put_gate_line(table, at, &[left.id, right.id], rows)
    }
}

// An output.
pub fn put_output(table: &mut [u8], at: usize, node: Node) -> usize
    requires { Room table.old at (output_field narrow_table node.id) }
    ensures { Written table.old at (output_field narrow_table node.id) table.new result }
{
    let id_at = bytes::open_field(table, at, OUTPUT as u8);
    let next = bytes::put_number(table, id_at, node.id as u64, ID_SIZE);
    bytes::close_field(table, at, next)
}
