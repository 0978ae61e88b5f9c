// The paper's number and the place of a fault in a sheet's shape, as words.
ghost use Rattle.std.specs.Prelude.{◌≡◌};
ghost use Rattle.sheet.specs.Shape.{number, place};

use crate::Fault;

// Why there is no trait for these two and for those of `drawing::refusals` is said there.
pub fn number_of_fault(f: Fault) -> u64
    ensures { result ≡ number f }
{
    match f {
        Fault::Torn(_) => 21,
        Fault::Tag(_) => 22,
        Fault::Length(_) => 23,
        Fault::Range(_) => 24,
        Fault::Extra(_) => 31,
    }
}

pub fn place_of_fault(f: Fault) -> u64
    ensures { result ≡ place f }
{
    match f {
        Fault::Torn(at)
        | Fault::Tag(at)
        | Fault::Length(at)
        | Fault::Range(at)
        | Fault::Extra(at) => at as u64,
    }
}
