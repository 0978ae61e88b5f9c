// What the inspector's program and the mapper's write, from bytes to lent buffers.
#![tactic(auto)]

ghost use Rattle.std.specs.Prelude.{◌≤◌, IfErr, IfOk, length};
ghost use Rattle.wording.specs.paper.Puts.{Wrote};
ghost use Rattle.wording.specs.paper.Rooms.{line_room};
ghost use Rattle.wording.specs.paper.Filled.{Front};
ghost use Rattle.printing.specs.paper.Reports.{line_of, Reports};
ghost use Rattle.printing.specs.paper.Draws.{Draws};

use inspecting::answers::{number_of_inspection, place_of_inspection};
use inspecting::{InspectError, inspect};
use mapping::answers::{number_of_reply, place_of_reply};
use mapping::map;
use storage::Label;
use wording::{write_accepted, write_refused};

// Room for the longest line.
pub const LINE_ROOM: usize = 53;

// The line of the inspector's reply.
fn write_reply(reply: Result<Label, InspectError>, text: &mut [u8]) -> usize
    requires { line_room ≤ length text.old }
    ensures { Wrote text.old (line_of reply) result text.new }
{
    match reply {
        Ok(depth) => write_accepted(depth, text),
        Err(_) => write_refused(
            number_of_inspection(reply),
            place_of_inspection(reply),
            text,
        ),
    }
}

// The inspector's line on a gate table and a sheet, at the front of the text buffer, and its length. A buffer without room for the
// longest line is left as it was, and the answer is 0.
pub fn report(table: &[u8], sheet: &[u8], text: &mut [u8]) -> usize
    ensures reports { Reports table.now sheet.now text.old result text.new }
    ensures front { Front result text.new }
{
    if text.len() < LINE_ROOM {
        return 0;
    }
    let reply = inspect(table, sheet);
    write_reply(reply, text)
}

// The mapper's sheet of a gate table at the front of the sheet buffer, and its length; or its line of refusal at the front of the text buffer, and that
// one's length, as the error. A text buffer without room for the longest line leaves both as they were, and the error is 0.
pub fn draw_up(table: &[u8], sheet: &mut [u8], text: &mut [u8]) -> Result<usize, usize>
    ensures draws { Draws table.now sheet.old text.old result sheet.new text.new }
    ensures front { IfOk result (λ length. Front length sheet.new) }
    ensures front_2 { IfErr result (λ length. Front length text.new) }
{
    if text.len() < LINE_ROOM {
        return Err(0);
    }
    let reply = map(table, sheet);
    match reply {
        Ok(length) => Ok(length),
        Err(_) => Err(write_refused(number_of_reply(reply), place_of_reply(reply), text)),
    }
}
