ghost use Rattle.std.specs.Prelude.{◌≡◌, ◌≤◌, map};
ghost use Rattle.std.specs.List.{AllByRecursion};
ghost use Rattle.arrayvec.specs.ArrayVec.{array_vec_len};
ghost use Rattle.evaluate.specs.Index.{SortedBy};
ghost use Rattle.property.specs.Reads.{records_of};
ghost use Rattle.docket.specs.Texts.{text_records};
ghost use Rattle.docket.specs.Truths.{Fitting, Holding};

use arrayvec::ArrayVec;
use evaluate::strata::Strata;
use property::properties::Property;
use rules::opened::Rules;

// How many properties a docket has room for.
pub const PLACES: usize = 16;

// A rule file that was opened, and the properties that were admitted for it, in their order, with the bytes of each.
// Its invariant: each property is what its bytes say, names only still atoms and is true at every reachable position.
#[derive(Drop)]
pub struct Docket {
    pub(crate) rules: Rules,
    pub(crate) strata: Strata,
    // two vectors, since a step is lent the properties as one slice
    pub(crate) properties: ArrayVec<Property, 16>,
    pub(crate) texts: ArrayVec<ArrayVec<u8, 384>, 16>,
    ghost sorted: { SortedBy rules strata },
    ghost few: { array_vec_len properties ≤ 16 },
    ghost said: { ∥ map records_of properties.items ≡ map text_records texts.items ∥₁ },
    ghost fitting: { ∥ AllByRecursion (Fitting rules) properties.items ∥₁ },
    ghost holding: { ∥ AllByRecursion (Holding rules) properties.items ∥₁ },
}
