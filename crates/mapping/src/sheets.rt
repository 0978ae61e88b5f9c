// A drawing mapped: stage one, then the sheet.
ghost use Rattle.packing.specs.Tables.{made_of};
ghost use Rattle.mapping.specs.Sheets.{DrawingAsked, DrawingMapped};

use crate::writing::write_sheet;
use packing::map_gates;
use sheet::narrow_form;
use storage::{Net, Numbers};

// Maps the drawing that the arrays hold.
pub fn map_drawing(
    net: Net,
    rows: &[u64],
    outputs: &[u16],
    labels: &mut [u16],
    cuts: &mut [u16],
    roles: &mut [u8],
    links: &mut [u16],
    luts: &mut [u8],
    words: &mut [u64],
    sheet: &mut [u8],
) -> usize
    requires { DrawingAsked net.numbers.inputs net.numbers.nodes net.numbers.k.leaves net.fanins.now rows.now
        net.order.now outputs.now net.numbers.roots (made_of labels.old cuts.old luts.old words.old)
        roles.old links.old sheet.old }
    ensures { DrawingMapped net.entry.numbers.inputs net.entry.numbers.nodes net.entry.numbers.k.leaves net.entry.fanins.now
        rows.now outputs.now net.entry.numbers.roots sheet.old result sheet.new }
{
    let made = map_gates(net, rows, outputs, labels, cuts, roles, links, luts, words);
    let form = narrow_form();
    let tables_at = net.numbers.nodes;
    write_sheet(
        net,
        form,
        labels,
        cuts,
        roles,
        links,
        luts,
        &words[tables_at..],
        made,
        sheet,
    )
}
