ghost use Rattle.std.specs.Prelude.{◌≡◌, ◌<◌, IfOk};
ghost use Rattle.evaluate.specs.Index.{segment, members as members_of, SortedBy};

use crate::strata::Strata;
use rules::opened::Rules;
use std::alloc::{AllocError, Global};

// The atoms of stratum `s`, ascending.
fn gather(heap: Global, rules: &Rules, s: u16) -> Result<Vec<u16>, AllocError>
    ensures { IfOk result (λ atoms. atoms.items ≡ members_of rules.now s) }
{
    let mut members = Vec::new(heap);
    for (atom, record) in rules.atoms().iter().enumerate() {
        if record.stratum == s {
            members.push(atom as u16)?;
        }
    }
    Ok(members)
}

impl Strata {
    // The index of a rule file's atoms.
    pub fn of(heap: Global, rules: &Rules) -> Result<Strata, AllocError>
        ensures { IfOk result (λ strata. SortedBy rules.now strata) }
    {
        let mut members = Vec::with_capacity(heap, 32)?;
        for s in 0..32u16 {
            members.push(gather(heap, rules, s)?)?;
        }
        Ok(Strata { members })
    }

    // The atoms of stratum `s`, ascending.
    pub fn members(&self, s: u16) -> &[u16]
        requires { s < 32 }
        ensures { result.now ≡ segment self.now s }
    {
        self.members[usize::from(s)].as_slice()
    }
}
