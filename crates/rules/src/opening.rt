ghost use Rattle.std.specs.Prelude.{◌≡◌, IfOk};
ghost use Rattle.rules.specs.Opens.{Opens, Says};
ghost use Rattle.rules.specs.Tables.{layout_of};
ghost use Rattle.rules.specs.Taken.{Taken};

use crate::checks::check;
use crate::faults::Refusal;
use crate::file::File;
use crate::opened::Rules;
use std::alloc::{AllocError, Global};

// The typed value of a rule file, or why there is none. A file with a fault gets that fault, never want of memory.
pub fn open(heap: Global, bytes: &[u8]) -> Result<Rules, Refusal>
    ensures { Opens bytes.now result }
{
    let layout = check(bytes)?;
    let file = File { bytes, layout };
    Ok(file.build(heap)?)
}

impl File<'_> {
    // The typed value of a file that passed every check.
    fn build(self, heap: Global) -> Result<Rules, AllocError>
        requires passed { Taken self.bytes.now }
        requires read { self.layout ≡ layout_of self.bytes.now }
        ensures { IfOk result (λ rules. Says self.entry.bytes.now rules) }
    {
        let moves = self.moves(heap)?;
        let atoms = self.records(heap)?;
        let rules = self.records(heap)?;
        let literals = self.records(heap)?;
        Ok(Rules {
            layout: self.layout,
            moves,
            atoms,
            rules,
            literals,
        })
    }
}
