// What begins between two equations: a name and `=`, or the keyword `out`.
ghost use Rattle.std.specs.Prelude.{◌≤◌, length};
ghost use Rattle.scanning.specs.Equations.{Begins, EqualsRead, LeftRead};

use spelling::{Stopped, byte_at, read_name, skip_blanks};

const EQUALS: u8 = 61;

// How many letters `out` has: no other keyword has as many.
const OUT_SIZE: usize = 3;

// The place of an expression behind `=`, or the place behind `out`.
#[derive(Clone, Copy)]
pub enum Left {
    Equation(usize),
    Out(usize),
}

// `=` behind the name that ends at `end`, and the blanks around it: the place of an expression.
fn read_equals(text: &[u8], end: usize) -> Result<usize, Stopped>
    requires { end ≤ length text.now }
    ensures { EqualsRead text.now end result }
{
    let sign = skip_blanks(text, end);
    if byte_at(text, sign) != EQUALS {
        return Err(Stopped { place: sign });
    }
    Ok(skip_blanks(text, sign + 1))
}

pub fn read_left(text: &[u8], at: usize) -> Result<Left, Stopped>
    requires { Begins text.now at }
    ensures { LeftRead text.now at result }
{
    match read_name(text, at) {
        Ok(end) => Ok(Left::Equation(read_equals(text, end)?)),
        Err(word) if word.place == at + OUT_SIZE => Ok(Left::Out(word.place)),
        Err(stopped) => Err(stopped),
    }
}
