// The lister's text, from a gate table's bytes to a lent buffer.
#![tactic(auto)]

ghost use Rattle.wording.specs.paper.Filled.{Front};
ghost use Rattle.listing.specs.paper.Lists.{Lists};
ghost use Rattle.listing.specs.Lists.{ListAsked, TakenListed};

use drawing::limits::{MOST_NODES, MOST_OUTPUTS, MOST_PLACES};
use drawing::refusals::{number_of, place_of};
use packing::map_gates;
use settling::{MOST_LINKS, MOST_WORDS};
use storage::{Net, Numbers};
use taking::{LOOP, TakeError, take_table};
use wording::{list_mapping, write_refused};

// Room for the longest listing.
pub const TEXT_ROOM: usize = 18595;

// Lists a table that was taken: stage one of the mapper, and its text. No evidence is looked for.
fn list_taken(net: Net, rows: &[u64], outputs: &[u16], text: &mut [u8]) -> usize
    requires { ListAsked net.numbers net.fanins.now rows.now net.order.now outputs.now text.old }
    ensures { TakenListed net.entry.numbers net.entry.fanins.now rows.now outputs.now text.old result text.new }
{
    let mut labels = [0u16; MOST_NODES];
    let mut cuts = [0u16; MOST_PLACES];
    let mut roles = [0u8; MOST_NODES];
    let mut links = [0u16; MOST_LINKS];
    let mut luts = [0u8; MOST_NODES];
    let mut words = [0u64; MOST_WORDS];
    let made = map_gates(
        net,
        rows,
        outputs,
        &mut labels,
        &mut cuts,
        &mut roles,
        &mut links,
        &mut luts,
        &mut words,
    );
    let tables_at = net.numbers.nodes;
    list_mapping(
        net.numbers,
        &labels,
        &cuts,
        &luts,
        &words[tables_at..],
        outputs,
        made.luts,
        made.depth,
        text,
    )
}

// The lister's text of a gate table, at the front of the text buffer, and its length. A buffer without room for the longest listing is left
// as it was, and the answer is 0.
pub fn list(table: &[u8], text: &mut [u8]) -> usize
    ensures lists { Lists table.now text.old result text.new }
    ensures front { Front result text.new }
{
    if text.len() < TEXT_ROOM {
        return 0;
    }
    let mut fanins = [0u16; MOST_PLACES];
    let mut rows = [0u64; MOST_NODES];
    let mut outputs = [0u16; MOST_OUTPUTS];
    let mut order = [0u16; MOST_NODES];
    let mut marks = [0u8; MOST_NODES];
    let taken = take_table(
        table,
        &mut fanins,
        &mut rows,
        &mut outputs,
        &mut order,
        &mut marks,
    );
    match taken {
        Ok(numbers) => list_taken(
            Net {
                numbers,
                fanins: &fanins,
                order: &order,
            },
            &rows,
            &outputs,
            text,
        ),
        Err(TakeError::Refused(r)) => write_refused(number_of(r), place_of(r), text),
        Err(TakeError::LoopAt(gate)) => write_refused(LOOP, gate.id as u64, text),
        // never given: the arrays have the lengths that `take_table` asks
        Err(TakeError::TooShort) => 0,
    }
}
