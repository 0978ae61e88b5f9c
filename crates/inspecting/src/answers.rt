// The paper's number and the place of the inspector's reply, as words. Two numbers of one value, each by its definition: no `From`.
ghost use Rattle.std.specs.Prelude.{◌≡◌};
ghost use Rattle.inspecting.specs.paper.Inspecting.{number, place};

use crate::InspectError;
use drawing::refusals::{number_of, place_of};
use sheet::faults::{number_of_fault, place_of_fault};
use storage::Label;
use taking::LOOP;

pub fn number_of_inspection(reply: Result<Label, InspectError>) -> u64
    ensures { result ≡ number reply }
{
    match reply {
        Ok(_) => 0,
        Err(InspectError::Refused(r)) => number_of(r),
        Err(InspectError::LoopAt(_)) => LOOP,
        Err(InspectError::Shape(fault)) => number_of_fault(fault),
        Err(InspectError::Cut(_)) => 25,
        Err(InspectError::Label(_)) => 26,
        Err(InspectError::Paths(_)) => 27,
        Err(InspectError::Cover(_)) => 28,
        Err(InspectError::Function(_)) => 29,
        Err(InspectError::Depth) => 30,
    }
}

// The depth of a sheet that is accepted.
pub fn place_of_inspection(reply: Result<Label, InspectError>) -> u64
    ensures { result ≡ place reply }
{
    match reply {
        Ok(depth) => depth.depth as u64,
        Err(InspectError::Refused(r)) => place_of(r),
        Err(InspectError::LoopAt(gate)) => gate.id as u64,
        Err(InspectError::Shape(fault)) => place_of_fault(fault),
        Err(InspectError::Cut(gate)) => gate.id as u64,
        Err(InspectError::Label(gate)) => gate.id as u64,
        Err(InspectError::Paths(gate)) => gate.id as u64,
        Err(InspectError::Cover(gate)) => gate.id as u64,
        Err(InspectError::Function(gate)) => gate.id as u64,
        Err(InspectError::Depth) => 0,
    }
}
