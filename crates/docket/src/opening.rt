ghost use Rattle.std.specs.Prelude.{◌≡◌, [], length, IfOk};
ghost use Rattle.rules.specs.Opens.{Opens};
ghost use Rattle.docket.specs.Dockets.{rules_opened, properties_of};

use crate::dockets::Docket;
use arrayvec::ArrayVec;
use evaluate::strata::Strata;
use property::properties::Property;
use rules::faults::Refusal;
use rules::opened::Rules;
use std::alloc::Global;

// The empty docket of a rule file, or why there is none.
pub fn open(heap: Global, bytes: &[u8]) -> Result<Docket, Refusal>
    ensures opens { Opens bytes.now (rules_opened result) }
    ensures empty { IfOk result (λ docket. properties_of docket ≡ []) }
{
    let rules = rules::opening::open(heap, bytes)?;
    let strata = Strata::of(heap, &rules)?;
    Ok(Docket {
        rules,
        strata,
        properties: ArrayVec::new(),
        texts: ArrayVec::new(),
    })
}

impl Docket {
    // How many properties stand.
    pub fn count(&self) -> usize
        ensures { result ≡ length (properties_of self.now) }
    {
        self.properties.len()
    }

    pub fn rules(&self) -> &Rules
        ensures { result.now ≡ self.now.rules }
    {
        &self.rules
    }

    // The properties that stand, in their order.
    pub fn properties(&self) -> &[Property]
        ensures { result.now ≡ properties_of self.now }
    {
        self.properties.as_slice()
    }
}
