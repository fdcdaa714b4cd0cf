ghost use Rattle.evaluate.specs.Claims.{RulesAreProper, RoundsAreStandard, StandardIsOne, PositionsHaveModels, GameReads, Sound, Settling, Exact, UnsupportedIsNo, StillAtomsStay, OnlyGivenMatters, ThreeWay};
ghost use Rattle.evaluate.specs.Evaluate.{bool_ops};
ghost use Rattle.evaluate.specs.Meanings.{meanings};

use truth::form::{TruthForm, laws_stand};

// Each function's contract is a theorem.

// The program of a rule file is stratified, its fluents and does atoms are given, and still atoms rest on still atoms.
pub fn rules_are_proper()
    ensures { RulesAreProper }
{}

// Over yes and no the rounds give the standard model.
pub fn rounds_are_standard()
    ensures { RoundsAreStandard }
{}

// There is only one standard model.
pub fn standard_is_one()
    ensures { StandardIsOne }
{}

// Each position and joint move has a standard model.
pub fn positions_have_models()
    ensures { PositionsHaveModels }
{}

// There is a game that reads terminal, legal, the following position and still atoms off the standard model.
pub fn game_reads()
    ensures { GameReads }
{}

// Where what is given allows answers in a world, the values of a level allow those of the standard model there.
pub fn levels_are_sound<T: TruthForm>()
    ensures { Sound (meanings T.neg T.conj T.disj) }
{
    laws_stand::<T>()
}

// Where what is given is settled, so are the values of a level.
pub fn levels_are_settled<T: TruthForm>()
    ensures { Settling (meanings T.neg T.conj T.disj) }
{
    laws_stand::<T>()
}

// Then they are exactly the answers of the standard model, in every world.
pub fn levels_are_exact<T: TruthForm>()
    ensures { Exact (meanings T.neg T.conj T.disj) }
{
    laws_stand::<T>()
}

// An atom whose only rule has the atom itself as body is no in every world, whatever is given.
pub fn unsupported_is_no<T: TruthForm>()
    ensures { UnsupportedIsNo (meanings T.neg T.conj T.disj) }
{
    laws_stand::<T>()
}

// Moves do not change still atoms: at the meanings of any form, and over yes and no.
pub fn still_atoms_stay<T: TruthForm>()
    ensures meanings { StillAtomsStay (meanings T.neg T.conj T.disj) }
    ensures answers { StillAtomsStay bool_ops }
{}

// Only the values of stratum 0 matter to the evaluation.
pub fn only_given_matters<T: TruthForm>()
    ensures { OnlyGivenMatters (meanings T.neg T.conj T.disj) }
{}

// Kleene's operations, which the three-way and the wide form have, read two least sets in each world: by yes literals, and by yes or
// open ones.
pub fn three_way_reads<T: TruthForm>()
    ensures { ThreeWay T.World }
{}
