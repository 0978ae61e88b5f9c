// The paths of a gate's line: each a length and its ids.
ghost use Rattle.std.specs.Prelude.{◌≡◌, not, ◌||◌, ◌≤◌, length};
ghost use Rattle.theory.specs.paper.Evidence.{joined};
ghost use Rattle.drawing.specs.paper.Bytes.{some_from};
ghost use Rattle.sheet.specs.paper.Shape.{paths_at, paths_use, some_empty};
ghost use Rattle.shaping.specs.Numbers.{paths_end};

use crate::terms::Terms;
use drawing::bytes::{ids_below, small_at};

// Do `count` paths from `at` on end exactly at `end`?
pub fn paths_use(terms: Terms, sheet: &[u8], at: usize, count: usize, end: usize) -> bool
    requires at_le_end { at ≤ end }
    requires end_in_bounds { end ≤ length sheet.now }
    ensures { result ≡ paths_use sheet.now at terms.form.width count end }
{
    let width = terms.form.width;
    let mut next = at;
    for _ in 0..count {
        if end - next < width {
            return false;
        }
        let size = width + small_at(sheet, next, width) * width;
        if end - next < size {
            return false;
        }
        next += size;
    }
    next == end
}

// Is no path empty, and is every id a node of the drawing?
pub fn paths_in_range(terms: Terms, sheet: &[u8], at: usize, count: usize) -> bool
    requires { paths_end sheet.now at terms.form.width count ≤ length sheet.now }
    ensures { result ≡ not (some_empty (paths_at sheet.now at terms.form.width count) || some_from terms.numbers.nodes (joined (paths_at sheet.now at terms.form.width count))) }
{
    let width = terms.form.width;
    let mut next = at;
    for _ in 0..count {
        let size = small_at(sheet, next, width);
        if size == 0 {
            return false;
        }
        if !ids_below(sheet, next + width, width, size, terms.numbers.nodes) {
            return false;
        }
        next = next + width + size * width;
    }
    true
}
