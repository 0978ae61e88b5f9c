// Numbers in a table's bytes, and in a sheet's.
ghost use Rattle.std.specs.Prelude.{◌≡◌, not, ◌+◌, ◌*◌, ◌^◌, ◌<◌, ◌≤◌, length};
ghost use Rattle.drawing.specs.paper.Limits.{most_k};
ghost use Rattle.drawing.specs.paper.Bytes.{number_at, length_at, value_at, ids_at, some_from};
ghost use Rattle.drawing.specs.Bytes.{ByteAt, Narrow, SmallAt};

use crate::limits::{LENGTH_SIZE, MOST_K};

// The byte at a place, as a number.
pub fn byte_at(s: &[u8], at: usize) -> usize
    requires { at < length s.now }
    ensures { ByteAt s.now at result }
{
    s[at] as usize
}

// The number that `size` bytes from `at` on make, high byte first.
pub fn number_at(s: &[u8], at: usize, size: usize) -> u64
    requires size_bound { size ≤ 8 }
    requires size_in_bounds { at + size ≤ length s.now }
    ensures { result ≡ number_at s.now at size }
{
    let mut number: u64 = 0;
    for &byte in &s[at..at + size] {
        number = number * 256 + byte as u64;
    }
    number
}

// A number of one byte or two. `Narrow width` stays a clause of this, `ids_below` and `put_ids`: a form's width is any number in the paper's
// definitions, so a type of narrow ones would be made at each of 19 calls, which is no plainer.
pub fn small_at(s: &[u8], at: usize, width: usize) -> usize
    requires narrow { Narrow width }
    requires width_in_bounds { at + width ≤ length s.now }
    ensures { SmallAt s.now at width result }
{
    let high = byte_at(s, at);
    if width == 1 {
        return high;
    }
    high * 256 + byte_at(s, at + 1)
}

// The length that the field at `at` gives for its value.
pub fn length_at(s: &[u8], at: usize) -> usize
    requires { value_at at ≤ length s.now }
    ensures { result ≡ length_at s.now at }
{
    number_at(s, at + 1, LENGTH_SIZE) as usize
}

// Are the `count` ids from `at` on all below `nodes`?
pub fn ids_below(s: &[u8], at: usize, width: usize, count: usize, nodes: usize) -> bool
    requires narrow { Narrow width }
    requires width_in_bounds { at + count * width ≤ length s.now }
    ensures { result ≡ not (some_from nodes (ids_at s.now at width count)) }
{
    for i in 0..count {
        if nodes <= small_at(s, at + i * width, width) {
            return false;
        }
    }
    true
}

// The largest table of a gate with m fanins: every bit below row 2^m set.
const FULL: [u64; MOST_K + 1] = [1, 3, 15, 255, 65535, 4294967295, 18446744073709551615];

pub fn full_table(m: usize) -> u64
    requires { m ≤ most_k }
    ensures { result + 1 ≡ 2 ^ (2 ^ m) }
{
    FULL[m]
}
