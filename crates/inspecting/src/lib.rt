// The inspector: a gate table and a sheet by anyone, accepted or refused.
#![tactic(auto)]

pub mod answers;
mod errors;

ghost use Rattle.std.specs.Prelude.{ℕ, ◌≤◌, length, take, ◌≡◌, List};
ghost use Rattle.storage.specs.Drawings.{net_in};
ghost use Rattle.drawing.specs.paper.Limits.{most_nodes};
ghost use Rattle.sheet.specs.paper.Encoding.{narrow};
ghost use Rattle.sheet.specs.paper.Rules.{gates};
ghost use Rattle.judging.specs.Gates.{lined_of, JudgeAsked, JudgesHeld};
ghost use Rattle.inspecting.specs.paper.Inspecting.{Inspects};
ghost use Rattle.inspecting.specs.Holding.{LastAsked, LastRuled, TableLaid, RulesAsked, SheetRuled, terms_for};

use drawing::Refusal;
use drawing::limits::{MOST_NODES, MOST_OUTPUTS, MOST_PLACES};
use judging::{Broken, judge_gates};
use shaping::{Terms, judge_shape, load_sheet};
use sheet::limits::MOST_DEPTH;
use sheet::{Fault, narrow_form};
use storage::{Label, Net, Node, Numbers};
use taking::take_table;
use weighing::luts::judge_luts;
use weighing::whole::judge_whole;

// Why a sheet is not accepted: the table's refusal; the lowest gate on a loop; the fault in the sheet's shape; or the first rule that is
// broken, with its gate. Depth names no gate.
#[derive(Clone, Copy)]
pub enum InspectError {
    Refused(Refusal),
    LoopAt(Node),
    Shape(Fault),
    Cut(Node),
    Label(Node),
    Paths(Node),
    Cover(Node),
    Function(Node),
    Depth,
}

// Passes three and four, on a sheet in arrays. The roles are scratch: for the walks, then for the gates that the cover needs.
fn judge_last(
    net: Net,
    rows: &[u64],
    outputs: &[u16],
    labels: &[u16],
    luts: &[u8],
    cuts: &[u16],
    tables: &[u64],
    head: Label,
    roles: &mut [u8],
) -> Result<Label, InspectError>
    requires { LastAsked net.numbers.k.leaves net.numbers.inputs net.numbers.nodes net.numbers.roots
        net.fanins.now rows.now outputs.now net.order.now labels.now luts.now cuts.now tables.now head.depth roles.old }
    ensures { LastRuled net.entry.numbers.k.leaves net.entry.numbers.inputs net.entry.numbers.nodes net.entry.fanins.now rows.now
        (take net.entry.numbers.roots outputs.now) labels.now luts.now cuts.now tables.now
        head.depth result }
{
    let mut values = [0u64; MOST_NODES];
    judge_luts(net, rows, luts, cuts, tables, roles, &mut values)?;
    let mut depths = [0u16; MOST_NODES];
    judge_whole(
        net.numbers,
        net.order,
        luts,
        cuts,
        outputs,
        labels,
        head,
        roles,
        &mut depths,
    )?;
    Ok(head)
}

// What a sheet for a table with these numbers is read by.
fn terms_for(numbers: Numbers) -> Terms
    requires { numbers.inputs ≤ numbers.nodes }
    ensures { (inputs_in : numbers.inputs ≤ numbers.nodes) → result ≡ terms_for numbers inputs_in }
{
    Terms {
        form: narrow_form(),
        most: Label { depth: MOST_DEPTH },
        numbers: numbers,
    }
}

// Pass two, on a sheet of the paper's form.
fn judge_lines(
    net: Net,
    labels: &[u16],
    cuts: &[u16],
    places: &[u32],
    sheet: &[u8],
) -> Result<(), Broken>
    requires nodes_le_most_nodes { net.numbers.nodes ≤ most_nodes }
    requires by_index { (roles : List ℕ) → net.numbers.nodes ≤ length roles → JudgeAsked net.numbers.k.leaves net.numbers.inputs net.numbers.nodes
        net.fanins.now net.order.now (lined_of narrow labels.now cuts.now places.now sheet.now) roles }
    ensures { JudgesHeld net.entry.numbers.k.leaves net.entry.numbers.inputs net.entry.numbers.nodes net.entry.fanins.now
        (lined_of narrow labels.now cuts.now places.now sheet.now)
        (gates (net_in net.entry.numbers.inputs net.entry.numbers.nodes net.entry.fanins.now)) result }
{
    let form = narrow_form();
    let mut roles = [0u8; MOST_NODES];
    judge_gates(net, form, labels, cuts, places, sheet, &mut roles)
}

// A sheet of sound shape is loaded once, and all later passes read the arrays: pass two, and for the paths of a line its bytes; then three
// and four.
fn judge_rules(net: Net, rows: &[u64], outputs: &[u16], sheet: &[u8]) -> Result<Label, InspectError>
    requires { RulesAsked net.numbers.k.leaves net.numbers.inputs net.numbers.nodes net.numbers.roots
        net.fanins.now rows.now outputs.now net.order.now sheet.now }
    ensures { SheetRuled net.entry.numbers.k.leaves net.entry.numbers.inputs net.entry.numbers.nodes net.entry.fanins.now rows.now
        (take net.entry.numbers.roots outputs.now) sheet.now result }
{
    let mut labels = [0u16; MOST_NODES];
    let mut cuts = [0u16; MOST_PLACES];
    let mut places = [0u32; MOST_NODES];
    let mut luts = [0u8; MOST_NODES];
    let mut lut_cuts = [0u16; MOST_PLACES];
    let mut tables = [0u64; MOST_NODES];
    let head = load_sheet(
        terms_for(net.numbers),
        sheet,
        &mut labels,
        &mut cuts,
        &mut places,
        &mut luts,
        &mut lut_cuts,
        &mut tables,
    );
    judge_lines(net, &labels, &cuts, &places, sheet)?;
    let mut roles = [0u8; MOST_NODES];
    judge_last(
        net, rows, outputs, &labels, &luts, &lut_cuts, &tables, head, &mut roles,
    )
}

// Pass one, then the others, for a table that was taken.
fn judge_sheet(net: Net, rows: &[u64], outputs: &[u16], sheet: &[u8]) -> Result<Label, InspectError>
    requires { TableLaid net.numbers.k.leaves net.numbers.inputs net.numbers.nodes net.numbers.roots
        net.fanins.now rows.now outputs.now net.order.now }
    ensures { SheetRuled net.entry.numbers.k.leaves net.entry.numbers.inputs net.entry.numbers.nodes net.entry.fanins.now rows.now
        (take net.entry.numbers.roots outputs.now) sheet.now result }
{
    judge_shape(terms_for(net.numbers), sheet)?;
    judge_rules(net, rows, outputs, sheet)
}

// A gate table and a sheet, judged, and the depth of a sheet that keeps all rules: replies 1 to 7 for a bad table, then the four passes.
// Everything stands in arrays for the largest table, 15,296 bytes in all, so none is too short and nothing is asked of the caller.
pub fn inspect(table: &[u8], sheet: &[u8]) -> Result<Label, InspectError>
    ensures { Inspects table.now sheet.now result }
{
    let mut fanins = [0u16; MOST_PLACES];
    let mut rows = [0u64; MOST_NODES];
    let mut outputs = [0u16; MOST_OUTPUTS];
    let mut order = [0u16; MOST_NODES];
    let mut marks = [0u8; MOST_NODES];
    let numbers = take_table(
        table,
        &mut fanins,
        &mut rows,
        &mut outputs,
        &mut order,
        &mut marks,
    )?;
    let net = Net {
        numbers,
        fanins: &fanins,
        order: &order,
    };
    judge_sheet(net, &rows, &outputs, sheet)
}
