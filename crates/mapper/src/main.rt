// Writes the mapping sheet of the gate table on standard input (its first 4,096 bytes) to standard output; or nothing there, and to standard error
// what the table is refused for.
#![tactic(auto)]

use printing::LINE_ROOM;
use sheet::limits::SHEET_ROOM;
use std::io;

// "the first 4,096 bytes of standard input"
const TABLE_ROOM: usize = 4096;

// A sheet or a line of refusal.
fn show(output: &impl Print, errors: &impl Print, table: &[u8]) -> io::Result<()> {
    let mut sheet = [0u8; SHEET_ROOM];
    let mut text = [0u8; LINE_ROOM];
    match printing::draw_up(table, &mut sheet, &mut text) {
        Ok(length) => output.write_all(&sheet[..length]),
        Err(length) => errors.write_all(&text[..length]),
    }
}

// A read that fails ends the table, as the input's end does.
fn main(rt: HostRuntime) -> io::Result<()> {
    let mut buffer = [0u8; TABLE_ROOM];
    let (n, _) = reading::fill(&mut rt.stdin(), &mut buffer);
    show(&rt, &rt.stderr(), &buffer[..n])
}
