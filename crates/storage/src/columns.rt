// Numbers in columns: `nodes` places a column, one column after the other. A clear of the first columns is one `storage::fill`.
ghost use Rattle.std.specs.Prelude.{◌≡◌, ◌≤◌, length};
ghost use Rattle.storage.specs.Entries.{cleared};

use crate::fill;

// The first `size` entries become 0.
pub fn clear(cells: &mut [u16], size: usize)
    requires { size ≤ length cells.old }
    ensures { cells.new ≡ cleared size cells.old }
{
    fill(cells, size, 0);
}

// The first `size` words become 0.
pub fn clear_words(words: &mut [u64], size: usize)
    requires { size ≤ length words.old }
    ensures { words.new ≡ cleared size words.old }
{
    fill(words, size, 0);
}
