ghost use Rattle.std.specs.Prelude.{◌≡◌};
ghost use Rattle.property.specs.Reads.{records_of, all_of_nothing};

use crate::properties::Property;
use crate::records::{Formula, Record};
use arrayvec::ArrayVec;

// All of nothing, a property that is true of every rule file at every position.
impl Default for Property {
    ghost is_default = { λ p. records_of p ≡ all_of_nothing };

    fn default() -> Property {
        let mut records = ArrayVec::new();
        records.push(Record {
            formula: Formula::All(0),
            next: 0,
        });
        Property { records, degree: 0 }
    }
}
