ghost use Rattle.std.specs.Prelude.{◌≡◌, ◌≤◌};
ghost use Rattle.rules.specs.First.{verdict};
ghost use Rattle.property.specs.Degrees.{degree_of};
ghost use Rattle.property.specs.First.{first_fault};
ghost use Rattle.property.specs.Paths.{MostFollowings};
ghost use Rattle.property.specs.Reads.{Reads, contents, records_of};
ghost use Rattle.property.specs.Trees.{StandsFor, property_of, degree as tree_degree};
ghost use Rattle.property.specs.Typed.{records_in};

use crate::degrees::whole_degree;
use crate::faults::Fault;
use crate::properties::Property;
use crate::records::Record;
use crate::text::Text;
use rules::opened::Rules;

// How many followings a path may have.
const MOST_FOLLOWINGS: u8 = 3;

// The typed value of a property file that speaks of these rules, or its first fault. Nothing is allocated.
pub fn read(rules: &Rules, bytes: &[u8]) -> Result<Property, Fault>
    ensures value { contents result ≡ verdict (first_fault rules.now bytes.now) (records_in bytes.now) }
    ensures taken { Reads rules.now bytes.now result }
{
    let records = Text::try_from(bytes)?.records(rules)?;
    let degree = whole_degree(records.as_slice());
    if degree > MOST_FOLLOWINGS {
        return Err(Fault::Degree);
    }
    Ok(Property { records, degree })
}

impl Property {
    // The records; the one with number n stands at n - 1.
    pub fn records(&self) -> &[Record]
        ensures value { result.now ≡ records_of self.now }
        ensures stands { StandsFor result.now (property_of result.now) }
    {
        self.records.as_slice()
    }

    // The most followings on a path from record 1.
    pub fn degree(&self) -> u8
        ensures value { result ≡ degree_of (records_of self.now) }
        ensures most { MostFollowings (records_of self.now) 1 result }
        ensures tree { result ≡ tree_degree (property_of (records_of self.now)) }
        ensures bound { result ≤ 3 }
    {
        self.degree
    }
}
