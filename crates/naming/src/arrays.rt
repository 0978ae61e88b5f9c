// What the reader of a text left, entry by entry.
ghost use Rattle.std.specs.Prelude.{◌≡◌, ◌+◌, ◌*◌, ◌<◌, ◌≤◌, length, get_or};
ghost use Rattle.naming.specs.Stored.{place_in};
ghost use Rattle.naming.specs.Lines.{three_in};

fn entry_at(array: &[u16], at: usize) -> usize
    requires { at < length array.now }
    ensures { result ≡ get_or array.now at 0 }
{
    array[at] as usize
}

// The place of the i-th name.
pub fn place_at(names: &[u16], i: usize) -> usize
    requires { 2 * i < length names.now }
    ensures { result ≡ place_in names.now i }
{
    entry_at(names, 2 * i)
}

// The function table of a gate, and its two operands.
// The bound stays a clause of each (`table_at`, `left_at`, `right_at`): they promise this of every gate that the array has room for, not only of a text's.
pub fn table_at(gates: &[u16], gate: usize) -> usize
    requires { 3 * (gate + 1) ≤ length gates.now }
    ensures { result ≡ (three_in gates.now gate).table }
{
    entry_at(gates, 3 * gate)
}

pub fn left_at(gates: &[u16], gate: usize) -> usize
    requires { 3 * (gate + 1) ≤ length gates.now }
    ensures { result ≡ (three_in gates.now gate).left }
{
    entry_at(gates, 3 * gate + 1)
}

pub fn right_at(gates: &[u16], gate: usize) -> usize
    requires { 3 * (gate + 1) ≤ length gates.now }
    ensures { result ≡ (three_in gates.now gate).right }
{
    entry_at(gates, 3 * gate + 2)
}
