ghost use Rattle.evaluate.specs.Index.{SortedBy};

use crate::strata::Strata;
use rules::opened::Rules;

// A rule file with the index of its atoms by stratum.
#[derive(Clone, Copy)]
pub struct Indexed<'a> {
    pub rules: &'a Rules,
    pub strata: &'a Strata,
    ghost sorted: { SortedBy rules.now strata.now },
}
