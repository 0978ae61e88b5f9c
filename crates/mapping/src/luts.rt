// The LUTs' fields of the sheet, from arrays.
ghost use mathlib.Core.List.{flat_map};
ghost use Rattle.sheet.specs.paper.Encoding.{lut_field};
ghost use Rattle.sheet.specs.Writing.{Written};
ghost use Rattle.settling.specs.Arrays.{luts_below};
ghost use Rattle.mapping.specs.Luts.{luts_at, LutAsked, LutsAsked};

use sheet::{Form, put_lut};
use storage::Node;
use storage::lists::list_at;
use storage::marks::is_marked;

// Writes the LUT of a root; of any other node nothing.
fn write_lut(
    form: Form,
    root: Node,
    cuts: &[u16],
    luts: &[u8],
    tables: &[u64],
    sheet: &mut [u8],
    at: usize,
) -> usize
    requires { LutAsked form root.id cuts.now luts.now tables.now sheet.old at }
    ensures { Written sheet.old at (flat_map (lut_field form) (luts_at cuts.now
        luts.now tables.now root.id)) sheet.new result }
{
    if !is_marked(luts, root) {
        return at;
    }
    let table = tables[root.id as usize];
    put_lut(form, sheet, at, root, list_at(cuts, root), table)
}

// The LUTs of the marked nodes, roots rising.
pub fn write_luts(
    form: Form,
    nodes: usize,
    cuts: &[u16],
    luts: &[u8],
    tables: &[u64],
    sheet: &mut [u8],
    at: usize,
) -> usize
    requires { LutsAsked form nodes cuts.now luts.now tables.now sheet.old at }
    ensures { Written sheet.old at (flat_map (lut_field form) (luts_below cuts.now
        luts.now tables.now nodes)) sheet.new result }
{
    let mut to = at;
    for v in 0..nodes {
        let root = Node { id: v as u16 };
        to = write_lut(form, root, cuts, luts, tables, sheet, to);
    }
    to
}
