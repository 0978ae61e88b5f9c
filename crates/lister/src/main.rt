// Lists the LUTs of the gate table on standard input (its first 4,096 bytes), or says what it is refused for.
#![tactic(auto)]

use listing::TEXT_ROOM;
use std::io;

// "the first 4,096 bytes of standard input"
const TABLE_ROOM: usize = 4096;

fn show(output: &impl Print, table: &[u8]) -> io::Result<()> {
    let mut text = [0u8; TEXT_ROOM];
    let length = listing::list(table, &mut text);
    output.write_all(&text[..length])
}

// A read that fails ends the table, as the input's end does.
fn main(rt: HostRuntime) -> io::Result<()> {
    let mut buffer = [0u8; TABLE_ROOM];
    let (n, _) = reading::fill(&mut rt.stdin(), &mut buffer);
    show(&rt, &buffer[..n])
}
