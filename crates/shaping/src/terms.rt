// What a sheet is read by, and what is so of it for every sheet.
ghost use Rattle.std.specs.Prelude.{◌≤◌};
ghost use Rattle.drawing.specs.Bytes.{Narrow};

use sheet::Form;
use storage::{Label, Numbers};

// What a sheet is read by: its form, the greatest depth and label, and the numbers of the drawing.
#[derive(Clone, Copy)]
pub struct Terms {
    pub form: Form,
    pub most: Label,
    pub numbers: Numbers,
    pub ghost narrow: { Narrow form.width },
    pub ghost inputs_in: { numbers.inputs ≤ numbers.nodes },
}
