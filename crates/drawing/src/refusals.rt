// The paper's number and the place of a table's refusal, as words.
ghost use Rattle.std.specs.Prelude.{◌≡◌};
ghost use Rattle.drawing.specs.Refusals.{number, place};

use crate::Refusal;

// Two functions, and no trait that `Fault` of sheet has too: no body would be shared, nothing takes either type, and replies that are a `Result` couldn't have it.
pub fn number_of(r: Refusal) -> u64
    ensures { result ≡ number r }
{
    match r {
        Refusal::Torn(_) => 1,
        Refusal::Tag(_) => 2,
        Refusal::Length(_) => 3,
        Refusal::Range(_) => 4,
        Refusal::Rows(_) => 5,
        Refusal::Outputs(_) => 6,
    }
}

pub fn place_of(r: Refusal) -> u64
    ensures { result ≡ place r }
{
    match r {
        Refusal::Torn(at)
        | Refusal::Tag(at)
        | Refusal::Length(at)
        | Refusal::Range(at)
        | Refusal::Rows(at)
        | Refusal::Outputs(at) => at as u64,
    }
}
