ghost use Rattle.std.specs.Prelude.{◌≡◌, ℕ, ◌*◌, ◌<◌, ◌≤◌, false, length};
ghost use Rattle.truth.specs.Bit.{bit};
ghost use Rattle.truth.specs.Wide.{Place, means as wide_means};
ghost use Rattle.rules.specs.Opens.{moves_of};
ghost use Rattle.evaluate.specs.Claims.{just};
ghost use Rattle.evaluate.specs.Positions.{Position, Joint, Game, ReadsStandardModel};
ghost use Rattle.property.specs.Reads.{Fits, records_of};
ghost use Rattle.property.specs.Trees.{degree as degree_of};
ghost use Rattle.play.specs.Marks.{marked};
ghost use Rattle.play.specs.Parts.{Play, horizon_of};
ghost use Rattle.parts.specs.Plays.{by_number};
ghost use Rattle.parts.specs.Tables.{tree_of, Spacious};
ghost use Rattle.docket.specs.Dockets.{trees_of};
ghost use Rattle.docket.specs.Plays.{Spells};
ghost use Rattle.docket.specs.Trials.{FirstMarked, MarksPlays};

use crate::dockets::Docket;
use crate::masks::all_plays;
use crate::plays::Inputs;
use evaluate::grid::Grid;
use parts::part_value::Claim;
use play::part::Part;
use play::plays::Plays;
use property::properties::Property;
use truth::form::TruthForm;
use truth::wide::Wide;

// Whether each play breaks the part: in world k, play k. The docket, the part and the property make a claim only once the plays are put.
fn judge<'a>(
    docket: &'a Docket,
    part: Part,
    property: &'a Property,
    plays: Plays<'_>,
    values: &mut [Wide],
) -> Wide
    requires fits { Fits docket.now.rules (records_of property.now) }
    requires room { Spacious values.old }
    ensures { (G : Game Position (Joint (moves_of docket.now.rules))) → ReadsStandardModel docket.now.rules G → (w : Place) → w.at < plays.entry.count → (play : Play Position (Joint (moves_of docket.now.rules))) → Spells docket.now.rules (horizon_of part (degree_of (tree_of property.now))) plays.entry.bytes.now w.at play → wide_means result w ≡ just (marked (by_number G) part (trees_of docket.now) (tree_of property.now) play) }
{
    let horizon = usize::from(part.horizon(property.degree()));
    let inputs = Inputs {
        rules: &docket.rules,
        plays,
    };
    inputs.put(horizon, values);
    let claim = Claim {
        rules: &docket.rules,
        part,
        property,
        docket: docket.properties(),
    };
    claim.evaluate(&docket.strata, &mut Grid { values })
}

// The plays that break the part, bit k for play k.
pub fn mark(
    docket: &Docket,
    part: Part,
    property: &Property,
    plays: Plays<'_>,
    values: &mut [Wide],
) -> u64
    requires fits { Fits docket.now.rules (records_of property.now) }
    requires room { Spacious values.old }
    ensures { MarksPlays docket.now part (tree_of property.now) plays.entry.bytes.now plays.entry.count result }
{
    let broken = judge(docket, part, property, plays, values);
    broken.and(Wide::settled(all_plays(plays))).may_be_yes()
}

// The first play whose bit is set.
pub fn first_marked(marks: u64) -> Option<usize>
    ensures { FirstMarked marks result }
{
    (0..64).find(|k| (marks >> *k) % 2 == 1)
}
