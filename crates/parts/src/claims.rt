ghost use Rattle.evaluate.specs.Evaluate.{bool_ops};
ghost use Rattle.evaluate.specs.Meanings.{meanings};
ghost use Rattle.parts.specs.Claims.{RecordsAreStill, ValuesAreMarks, ValuesShowBreaks, LastMovesDoNotMatter, PartsAreSound, PartsAreSettled, MarksAreAllowed, MarksAreExact, ClosedMeansUnbroken};

use truth::form::{TruthForm, laws_stand};

// Each function's contract is a theorem.

// A property that was read names only still atoms.
pub fn records_are_still()
    ensures { RecordsAreStill }
{}

// Over yes and no the value of a part on the levels of a play is the play's mark.
pub fn values_are_marks()
    ensures { ValuesAreMarks }
{}

// It is yes exactly if the play breaks the part.
pub fn values_show_breaks()
    ensures { ValuesShowBreaks }
{}

// Does atoms of the last level do not matter: at any form, and over yes and no.
pub fn last_moves_do_not_matter<T: TruthForm>()
    ensures meanings { LastMovesDoNotMatter (meanings T.neg T.conj T.disj) }
    ensures answers { LastMovesDoNotMatter bool_ops }
{}

// Where the inputs allow answers in a world, the value of the part allows what they give there.
pub fn parts_are_sound<T: TruthForm>()
    ensures { PartsAreSound (meanings T.neg T.conj T.disj) }
{
    laws_stand::<T>()
}

// Where the inputs are settled, so is the value of the part.
pub fn parts_are_settled<T: TruthForm>()
    ensures { PartsAreSettled (meanings T.neg T.conj T.disj) }
{
    laws_stand::<T>()
}

// The value of the part allows the mark of every play that the inputs allow.
pub fn marks_are_allowed<T: TruthForm>()
    ensures { MarksAreAllowed (meanings T.neg T.conj T.disj) }
{
    laws_stand::<T>()
}

// Over settled inputs it is exactly the mark of the play that they allow, in every world.
pub fn marks_are_exact<T: TruthForm>()
    ensures { MarksAreExact (meanings T.neg T.conj T.disj) }
{
    laws_stand::<T>()
}

// Where it is no, no play that the inputs allow breaks the part.
pub fn closed_means_unbroken<T: TruthForm>()
    ensures { ClosedMeansUnbroken (meanings T.neg T.conj T.disj) }
{
    laws_stand::<T>()
}
