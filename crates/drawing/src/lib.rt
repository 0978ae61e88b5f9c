// The reading of a gate table: its bytes into arrays that the caller lends.
#![tactic(auto)]

pub mod bytes;
mod fields;
mod filling;
pub mod limits;
pub mod refusals;

ghost use Rattle.std.specs.Prelude.{◌≡◌, true, Ok};
ghost use Rattle.drawing.specs.declared.ReadError.TheVariants.{Refused};
ghost use Rattle.drawing.specs.paper.Forms.{narrow_table, form_of};
ghost use Rattle.drawing.specs.paper.Fields.{head_verdict};
ghost use Rattle.drawing.specs.paper.Reading.{numbers_with};
ghost use Rattle.drawing.specs.Reading.{arrays_of, enough, Reads};

use crate::limits::{
    GATE, GATES_AT, HEAD, HEAD_SIZE, ID_SIZE, INPUTS_AT, K_AT, LEAST_NODES, MOST_NODES,
    MOST_OUTPUTS, MOST_PLACES, OUTPUT,
};
use storage::{CutSize, Numbers};

// The form of a gate table: in how many bytes it writes an id, and G; the tags of its fields; how many bytes a head's value has; and the
// least and the most nodes.
#[derive(Clone, Copy)]
pub struct TableForm {
    pub width: usize,
    pub head: usize,
    pub gate: usize,
    pub output: usize,
    pub size: usize,
    pub least: usize,
    pub most: usize,
}

// What a gate table is refused for, with the place that the refusal names.
#[derive(Clone, Copy)]
pub enum Refusal {
    Torn(usize),
    Tag(usize),
    Length(usize),
    Range(usize),
    Rows(usize),
    Outputs(usize),
}

// Why a reading has no numbers to answer.
// TooShort: an array that the caller lent is shorter than the largest table needs, and the bytes were not looked at.
#[derive(Clone, Copy)]
pub enum ReadError {
    Refused(Refusal),
    TooShort,
}

impl From<Refusal> for ReadError {
    ghost from_gives = { λ r e. e ≡ Refused r };

    fn from(r: Refusal) -> ReadError {
        ReadError::Refused(r)
    }
}

// Document 01's form: ids of one byte.
pub fn narrow_table() -> TableForm
    ensures { result ≡ narrow_table }
{
    TableForm {
        width: ID_SIZE,
        head: HEAD,
        gate: GATE,
        output: OUTPUT,
        size: HEAD_SIZE,
        least: LEAST_NODES,
        most: MOST_NODES,
    }
}

// The numbers of a sound head, which says nothing of outputs.
fn sound_head(form: TableForm, table: &[u8]) -> Numbers
    requires form_value { form ≡ form_of table.now }
    requires table_value { head_verdict table.now ≡ Ok tt }
    ensures { result ≡ numbers_with table.now 0 }
{
    let inputs = bytes::byte_at(table, INPUTS_AT);
    Numbers {
        k: CutSize {
            leaves: table[K_AT],
        },
        inputs: inputs,
        nodes: inputs + bytes::small_at(table, GATES_AT, form.width),
        roots: 0,
    }
}

// What follows a sound head, into arrays that are long enough.
fn read_body(
    form: TableForm,
    table: &[u8],
    fanins: &mut [u16],
    rows: &mut [u64],
    outputs: &mut [u16],
) -> Result<Numbers, ReadError>
    requires form_value { form ≡ form_of table.now }
    requires table_value { head_verdict table.now ≡ Ok tt }
    requires outputs_value { enough (arrays_of fanins.old rows.old outputs.old) ≡ true }
    ensures { Reads (arrays_of fanins.old rows.old outputs.old) table.now result
        (arrays_of fanins.new rows.new outputs.new) }
{
    let head = sound_head(form, table);
    filling::put_inputs(fanins, head.inputs);
    let at = filling::read_gates(form, head, table, fanins, rows)?;
    let roots = filling::read_outputs(form, table, at, head.nodes, outputs)?;
    Ok(Numbers { roots, ..head })
}

// Reads a gate table in one pass: a whole table's numbers, whose roots are its outputs. The arrays are lent for the largest table: the places of its nodes' fanins, a function table a node,
// and the outputs; longer ones serve too.
pub fn read(
    table: &[u8],
    fanins: &mut [u16],
    rows: &mut [u64],
    outputs: &mut [u16],
) -> Result<Numbers, ReadError>
    ensures { Reads (arrays_of fanins.old rows.old outputs.old) table.now result
        (arrays_of fanins.new rows.new outputs.new) }
{
    if fanins.len() < MOST_PLACES || rows.len() < MOST_NODES || outputs.len() < MOST_OUTPUTS {
        return Err(ReadError::TooShort);
    }
    let form = narrow_table();
    fields::head_ruling(form, table)?;
    read_body(form, table, fanins, rows, outputs)
}
