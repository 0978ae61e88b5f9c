// Reads a text of equations whole: the line of inputs, the equations, the line of outputs. What it says is kept in two lent arrays.
#![tactic(auto)]

mod equations;
mod expressions;
mod gates;
mod lefts;
mod names;
mod operands;

ghost use Rattle.std.specs.Prelude.{◌≤◌, length};
ghost use Rattle.scanning.specs.Equations.{EquationsAsked};
ghost use Rattle.scanning.specs.Scanning.{OutputsAsked, OutputsOf, EquatedOf, ScanAsked, InputsOf, TextOf, Scans};

use crate::equations::{Stage, read_equations};
use crate::names::read_names;
use spelling::{Stopped, byte_at, skip_blanks};

// The letters of `in`.
const LETTER_I: u8 = 105;

const LETTER_N: u8 = 110;

// How much of each was read.
#[derive(Clone, Copy)]
pub struct Counts {
    pub inputs: usize,
    pub definitions: usize,
    pub gates: usize,
    pub outputs: usize,
}

// The line of outputs, from behind `out` to the end of the text.
fn read_outputs(
    text: &[u8],
    stage: Stage,
    names: &mut [u16],
    inputs: usize,
) -> Result<Counts, Stopped>
    requires { OutputsAsked text.now stage names.old }
    ensures { OutputsOf text.now stage inputs names.old names.new result }
{
    let line = read_names(text, stage.next, names, stage.listed, true)?;
    if line.next != text.len() {
        return Err(Stopped { place: line.next });
    }
    Ok(Counts {
        inputs,
        definitions: stage.listed,
        gates: stage.made,
        outputs: line.listed - stage.listed,
    })
}

// All behind the line of inputs.
fn read_equated(
    text: &[u8],
    at: usize,
    gates: &mut [u16],
    names: &mut [u16],
    inputs: usize,
) -> Result<Counts, Stopped>
    requires { EquationsAsked text.now at gates.old names.old inputs }
    ensures { EquatedOf text.now at gates.old names.old inputs gates.new names.new result }
{
    let stage = read_equations(text, at, gates, names, inputs)?;
    read_outputs(text, stage, names, inputs)
}

// All behind `in`.
fn read_inputs(
    text: &[u8],
    at: usize,
    gates: &mut [u16],
    names: &mut [u16],
) -> Result<Counts, Stopped>
    requires scan_asked { ScanAsked text.now gates.old names.old }
    requires at_in_bounds { at ≤ length text.now }
    ensures { InputsOf text.now at gates.old names.old gates.new names.new result }
{
    let line = read_names(text, at, names, 0, false)?;
    read_equated(text, line.next, gates, names, line.listed)
}

fn read_whole(text: &[u8], gates: &mut [u16], names: &mut [u16]) -> Result<Counts, Stopped>
    requires { ScanAsked text.now gates.old names.old }
    ensures { TextOf text.now gates.old names.old gates.new names.new result }
{
    let at = skip_blanks(text, 0);
    if byte_at(text, at) != LETTER_I {
        return Err(Stopped { place: at });
    }
    let second = at + 1;
    if byte_at(text, second) != LETTER_N {
        return Err(Stopped { place: second });
    }
    read_inputs(text, second + 1, gates, names)
}

// A text in the grammar; or the end of its longest beginning, and the arrays are 0 again.
pub fn read_text(text: &[u8], gates: &mut [u16], names: &mut [u16]) -> Result<Counts, Stopped>
    requires { ScanAsked text.now gates.old names.old }
    ensures { Scans text.now gates.old names.old gates.new names.new result }
{
    let scan = read_whole(text, gates, names);
    if scan.is_err() {
        gates.fill(0);
        names.fill(0);
    }
    scan
}
