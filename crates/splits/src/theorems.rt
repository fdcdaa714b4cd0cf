ghost use Rattle.splits.specs.Coverage.{TreeCovers, WholeExcludes};
ghost use Rattle.splits.specs.Example.{Worked};
ghost use Rattle.splits.specs.Plain.{PlainCloses, PlainShows, PlainMade, DraftIsTaken, PlainIsSmall, WholeCounts};
ghost use Rattle.splits.specs.Trees.{WalkTakesWhole};

use crate::judge::Judge;

// The walk takes exactly the files of trees that close the case.
pub fn walk_takes_whole<J: Judge>(judge: &J)
    ensures { WalkTakesWhole (J.closed judge.now) }
{}

// A tree that closes a case covers every full setting that agrees with it, so no such setting is bad if none is in a closed case.
pub fn tree_covers<J: Judge>(judge: &J)
    ensures covers { TreeCovers (J.closed judge.now) }
    ensures excludes { WholeExcludes (J.closed judge.now) }
{}

// The plain tree closes its case, and there is one if every settled case is closed; else a settled case that is not closed is shown.
pub fn plain_decides<J: Judge>(judge: &J)
    ensures closes { PlainCloses (J.closed judge.now) }
    ensures shows { PlainShows (J.closed judge.now) }
    ensures made { PlainMade (J.closed judge.now) }
{}

// The walk takes what the draft writes.
pub fn draft_is_taken<J: Judge>(judge: &J)
    ensures { DraftIsTaken (J.closed judge.now) }
{}

// The plain file never needs more records than the whole split, whose number is the sum of the products of the first branch counts.
pub fn plain_is_small<J: Judge>(judge: &J)
    ensures small { PlainIsSmall (J.closed judge.now) }
    ensures counts { WholeCounts }
{}

// A worked example: what the walk answers to three files, and the number of records of the whole split.
pub fn worked_example()
    ensures { Worked }
{}
