ghost use Rattle.std.specs.Prelude.{◌≡◌};
ghost use Rattle.rules.specs.First.{verdict, first_fault};
ghost use Rattle.rules.specs.Tables.{layout_of};

use crate::faults::Fault;
use crate::file::File;
use crate::header::read_layout;
use crate::layout::Layout;
use crate::linked::LinkedFile;
use crate::records::{Atom, Literal, Rule};

// The first fault of a rule file in checking order; or else what its header says. Nothing is allocated.
pub fn check(bytes: &[u8]) -> Result<Layout, Fault>
    ensures { result ≡ verdict (first_fault bytes.now) (layout_of bytes.now) }
{
    let layout = read_layout(bytes)?;
    let file = File { bytes, layout };
    file.check_all::<Atom>()?;
    file.check_all::<Rule>()?;
    file.check_all::<Literal>()?;
    LinkedFile { file }.check_conditions()?;
    Ok(layout)
}
