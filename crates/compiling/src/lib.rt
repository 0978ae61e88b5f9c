// Equations to a gate table: refusals 41 to 43, 7 and 8, or the table's bytes at the front of a lent buffer.
#![tactic(auto)]

pub mod answers;
mod tables;

ghost use Rattle.std.specs.Prelude.{◌≡◌, ◌+◌, ◌*◌, ◌<◌};
ghost use Rattle.grammar.specs.paper.Text.{most_text};
ghost use Rattle.compiling.specs.paper.Compiles.{Compiles};
ghost use Rattle.compiling.specs.Stages.{Scanned, NamesRight, numbers_right, error_of};
ghost use Rattle.compiling.specs.declared.CompileError.TheVariants.{Text};

use crate::tables::{store_table, write_table};
use drawing::limits::{LEAST_K, MOST_INPUTS, MOST_K, MOST_NODES, MOST_OUTPUTS};
use naming::{Equations, first_misnamed};
use scanning::{Counts, read_text};
use spelling::{MOST_TEXT, Stopped};
use storage::{CutSize, Node};
use taking::TakeError;

// Room for the gates and names of the longest text: a gate has a byte of its own, a name two.
const GATE_PLACES: usize = 3 * MOST_TEXT;

const NAME_PLACES: usize = MOST_TEXT;

// "8 at 4,096 for a table buffer below that": room for every table that is compiled.
pub const TABLE_ROOM: usize = 4096;

// Why a text is not compiled: its text, a name or its numbers are refused; or it has a loop, and this is the lowest gate on one; or the table buffer is too short.
#[derive(Clone, Copy)]
pub enum CompileError {
    Text(usize),
    Name(usize),
    Numbers,
    LoopAt(Node),
    Room,
}

impl From<Stopped> for CompileError {
    ghost from_gives = { λ stopped compile. compile ≡ Text stopped.place };

    fn from(e: Stopped) -> CompileError {
        CompileError::Text(e.place)
    }
}

impl From<TakeError> for CompileError {
    ghost from_gives = { λ take compile. compile ≡ error_of take };

    fn from(e: TakeError) -> CompileError {
        match e {
            TakeError::LoopAt(gate) => CompileError::LoopAt(gate),
            // never given: the table reads whole, and the arrays have the lengths that `take_table` asks
            TakeError::Refused(_) => CompileError::Room,
            TakeError::TooShort => CompileError::Room,
        }
    }
}

// Are K, inputs, nodes and outputs those of document 01?
fn in_numbers(k: u64, counts: Counts) -> bool
    requires { counts.inputs + counts.gates < 3 * most_text }
    ensures { result ≡ numbers_right k counts }
{
    if k < (LEAST_K as u64) {
        return false;
    }
    if (MOST_K as u64) < k {
        return false;
    }
    if MOST_INPUTS < counts.inputs {
        return false;
    }
    if MOST_NODES < counts.inputs + counts.gates {
        return false;
    }
    counts.outputs <= MOST_OUTPUTS
}

// A text whose names are right.
fn compile_named(equations: Equations, k: u64, table: &mut [u8]) -> Result<usize, CompileError>
    requires { NamesRight equations.text.now equations.gates.now equations.names.now equations.counts }
    ensures { Compiles equations.entry.text.now k table.old result table.new }
{
    if !in_numbers(k, equations.counts) {
        return Err(CompileError::Numbers);
    }
    let mut bytes = [0u8; TABLE_ROOM];
    let size = CutSize { leaves: k as u8 };
    let length = write_table(equations, size, &mut bytes);
    store_table(&bytes[..length], table)
}

// A text in the grammar.
fn compile_scanned(equations: Equations, k: u64, table: &mut [u8]) -> Result<usize, CompileError>
    requires { Scanned equations.text.now equations.gates.now equations.names.now equations.counts }
    ensures { Compiles equations.entry.text.now k table.old result table.new }
{
    match first_misnamed(equations) {
        Some(place) => Err(CompileError::Name(place)),
        None => compile_named(equations, k, table),
    }
}

// The length of the gate table of a text of equations, for lookup tables of K inputs. Refusals come in the request's order, and each leaves the buffer as it was.
pub fn compile(text: &[u8], k: u64, table: &mut [u8]) -> Result<usize, CompileError>
    ensures { Compiles text.now k table.old result table.new }
{
    if MOST_TEXT < text.len() {
        return Err(CompileError::Text(MOST_TEXT));
    }
    let mut gates = [0u16; GATE_PLACES];
    let mut names = [0u16; NAME_PLACES];
    let counts = read_text(text, &mut gates, &mut names)?;
    let equations = Equations {
        text,
        gates: &gates,
        names: &names,
        counts,
    };
    compile_scanned(equations, k, table)
}
