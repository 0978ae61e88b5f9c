// A mapping sheet from arrays: the head, the gates' lines with their evidence, and the LUTs.
ghost use Rattle.mapping.specs.WholeSheets.{SheetAsked, SheetWritten};

use crate::lines::write_lines;
use crate::luts::write_luts;
use packing::Mapping;
use sheet::{Form, put_head};
use storage::{Net, Numbers};

// What stands in the arrays, as a sheet. The roles and the links are used for the evidence.
pub fn write_sheet(
    net: Net,
    form: Form,
    labels: &[u16],
    cuts: &[u16],
    roles: &mut [u8],
    links: &mut [u16],
    luts: &[u8],
    tables: &[u64],
    made: Mapping,
    sheet: &mut [u8],
) -> usize
    requires { SheetAsked form net.numbers.inputs net.numbers.nodes net.numbers.k.leaves net.fanins.now net.order.now
        labels.now cuts.now roles.old links.old luts.now tables.now made sheet.old }
    ensures { SheetWritten form net.entry.numbers.inputs net.entry.numbers.nodes net.entry.numbers.k.leaves net.entry.fanins.now
        labels.now cuts.now luts.now tables.now made
        sheet.old result sheet.new }
{
    let depth = made.depth;
    let lines_at = put_head(form, sheet, depth, made.luts);
    let luts_at = write_lines(net, form, labels, cuts, roles, links, sheet, lines_at);
    write_luts(form, net.numbers.nodes, cuts, luts, tables, sheet, luts_at)
}
