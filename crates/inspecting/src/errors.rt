// What the table's reader and the passes find wrong, as the inspector's refusal.
ghost use Rattle.std.specs.Prelude.{◌≡◌};
ghost use Rattle.inspecting.specs.declared.InspectError.TheVariants.{Shape};
ghost use Rattle.inspecting.specs.Holding.{take_error, gate_error, lut_error, whole_error};

use crate::InspectError;
use judging::Broken;
use sheet::Fault;
use taking::TakeError;
use weighing::luts::LutFault;
use weighing::whole::WholeFault;

// As mapping's and compiling's: each names the cases of its own error, and no function says that plainer.
impl From<TakeError> for InspectError {
    ghost from_gives = { λ take inspect. inspect ≡ take_error take };

    fn from(e: TakeError) -> InspectError {
        match e {
            TakeError::Refused(r) => InspectError::Refused(r),
            TakeError::LoopAt(gate) => InspectError::LoopAt(gate),
            // never given: the arrays have the lengths that `take_table` asks
            TakeError::TooShort => InspectError::Depth,
        }
    }
}

impl From<Fault> for InspectError {
    ghost from_gives = { λ fault inspect. inspect ≡ Shape fault };

    fn from(e: Fault) -> InspectError {
        InspectError::Shape(e)
    }
}

impl From<Broken> for InspectError {
    ghost from_gives = { λ broken inspect. inspect ≡ gate_error broken };

    fn from(e: Broken) -> InspectError {
        match e {
            Broken::Cut(gate) => InspectError::Cut(gate),
            Broken::Label(gate) => InspectError::Label(gate),
            Broken::Paths(gate) => InspectError::Paths(gate),
        }
    }
}

impl From<LutFault> for InspectError {
    ghost from_gives = { λ fault inspect. inspect ≡ lut_error fault };

    fn from(e: LutFault) -> InspectError {
        match e {
            LutFault::Cut(root) => InspectError::Cut(root),
            LutFault::Function(root) => InspectError::Function(root),
        }
    }
}

impl From<WholeFault> for InspectError {
    ghost from_gives = { λ fault inspect. inspect ≡ whole_error fault };

    fn from(e: WholeFault) -> InspectError {
        match e {
            WholeFault::Cover(gate) => InspectError::Cover(gate),
            WholeFault::Depth => InspectError::Depth,
        }
    }
}
