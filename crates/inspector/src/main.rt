// Judges the sheet in file `sheet` (its first 49,152 bytes) of the gate table in file `net` (its first 4,096), both in the folder that it is run in.
#![tactic(auto)]

ghost use Rattle.reading.specs.Counts.{IsPrefixLen};

use printing::LINE_ROOM;
use sheet::limits::SHEET_ROOM;
use std::rt::Files;
use std::{fs, io};

// "the first 4,096 bytes of file `net`"
const TABLE_ROOM: usize = 4096;

// A file that cannot be opened counts as empty, and one ends where a read of it fails.
fn load(files: &impl Files, path: &str, bytes: &mut [u8]) -> usize
    ensures { IsPrefixLen result bytes.new }
{
    let Ok(mut file) = fs::open(files, path) else {
        return 0;
    };
    let (n, _) = reading::fill(&mut file, bytes);
    n
}

fn show(output: &impl Print, net: &[u8], sheet: &[u8]) -> io::Result<()> {
    let mut text = [0u8; LINE_ROOM];
    let length = printing::report(net, sheet, &mut text);
    output.write_all(&text[..length])
}

fn main(rt: HostRuntime) -> io::Result<()> {
    let mut net = [0u8; TABLE_ROOM];
    let mut sheet = [0u8; SHEET_ROOM];
    let m = load(&rt, "net", &mut net);
    let n = load(&rt, "sheet", &mut sheet);
    show(&rt, &net[..m], &sheet[..n])
}
