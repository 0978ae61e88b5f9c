// The library for programs in C and in Rust: the mapper, the inspector and the reader of equations, each with its reply as a word.
#![tactic(auto)]

ghost use Rattle.std.specs.Prelude.{◌≡◌, ◌<◌};
ghost use Rattle.plover.specs.paper.Words.{half, word_of, MapsAs, InspectsAs, CompilesAs};

use inspecting::answers::{number_of_inspection, place_of_inspection};
use mapping::answers::{number_of_reply, place_of_reply};

// 2 to the 32: what the upper half of a word counts.
const HALF: u64 = 4294967296;

// The number in the upper half, the place in the lower.
fn word(number: u64, place: u64) -> u64
    requires number_lt_half { number < half }
    requires place_lt_half { place < half }
    ensures { result ≡ word_of number place }
{
    number * HALF + place
}

// `mapping::map`, with its reply as a word. In C a slice is a pointer and a length.
#[unsafe(no_mangle)]
pub extern "C" fn plover_map(table: &[u8], sheet: &mut [u8]) -> u64
    ensures { MapsAs table.now sheet.old result sheet.new }
{
    let reply = mapping::map(table, sheet);
    word(number_of_reply(reply), place_of_reply(reply))
}

// `inspecting::inspect`, with its reply as a word.
#[unsafe(no_mangle)]
pub extern "C" fn plover_inspect(table: &[u8], sheet: &[u8]) -> u64
    ensures { InspectsAs table.now sheet.now result }
{
    let reply = inspecting::inspect(table, sheet);
    word(number_of_inspection(reply), place_of_inspection(reply))
}

// `compiling::compile`, with its reply as a word.
#[unsafe(no_mangle)]
pub extern "C" fn plover_equations(text: &[u8], k: u64, table: &mut [u8]) -> u64
    ensures { CompilesAs text.now k table.old result table.new }
{
    let reply = compiling::compile(text, k, table);
    let number = compiling::answers::number_of_reply(reply);
    let place = compiling::answers::place_of_reply(reply);
    word(number, place)
}
