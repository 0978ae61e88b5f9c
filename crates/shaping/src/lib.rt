// The shape of a sheet, and a sheet of sound shape in arrays: pass one of the inspector.
#![tactic(auto)]

mod fields;
mod loading;
mod numbers;
mod paths;
mod reader;
mod runs;
mod storing;
mod terms;

ghost use Rattle.std.specs.Prelude.{◌≡◌};
ghost use Rattle.sheet.specs.paper.Shape.{reading};
ghost use Rattle.shaping.specs.Terms.{due_of};
ghost use Rattle.shaping.specs.Loading.{line_arrays, LineRoom, lut_arrays, LutRoom, Loadable, Loaded};

use crate::loading::{load_lines, load_luts};
use crate::numbers::label_at;
use crate::reader::{begin, move_on, tell};
use crate::runs::{head_turn, judge_field};
pub use crate::terms::Terms;
use sheet::Fault;
use sheet::limits::DEPTH_AT;
use storage::Label;

// Pass one: the ruling on the shape of a sheet. A reader walks its fields, from the front on, until none is due.
pub fn judge_shape(terms: Terms, sheet: &[u8]) -> Result<(), Fault>
    ensures { result ≡ (reading (due_of terms) sheet.now).ruling }
{
    let mut reader = begin(sheet);
    let mut left = head_turn(terms, sheet, tell(reader))?;
    reader = move_on(reader);
    while let Some(next) = judge_field(terms, sheet, reader.at, tell(reader), left)? {
        left = next;
        reader = move_on(reader);
    }
    Ok(())
}

// Loads a sheet of sound shape: each node's label and cut, and where its line stands; each root's mark, cut and table.
// Behind the leaves of a cut stand zeros. Answers the head's depth.
pub fn load_sheet(
    terms: Terms,
    sheet: &[u8],
    labels: &mut [u16],
    cuts: &mut [u16],
    places: &mut [u32],
    luts: &mut [u8],
    lut_cuts: &mut [u16],
    tables: &mut [u64],
) -> Label
    requires loadable { Loadable (due_of terms) sheet.now }
    requires line_room { LineRoom terms.numbers.nodes (line_arrays labels.old cuts.old places.old) }
    requires lut_room { LutRoom terms.numbers.nodes (lut_arrays luts.old lut_cuts.old tables.old) }
    ensures { Loaded (due_of terms) sheet.now (line_arrays labels.old cuts.old places.old) (lut_arrays luts.old lut_cuts.old tables.old) result.depth (line_arrays labels.new cuts.new places.new) (lut_arrays luts.new lut_cuts.new tables.new) }
{
    let next = load_lines(terms, sheet, labels, cuts, places);
    load_luts(terms, sheet, next, luts, lut_cuts, tables);
    label_at(terms, sheet, DEPTH_AT)
}
