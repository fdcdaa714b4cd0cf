ghost use Rattle.evaluate.specs.Positions.{Game};
ghost use Rattle.play.specs.Claims.{Induction, DocketsAreTrue, PrefixesDecide, LongerSequencesSatisfy, BaseSays, StepSays, BrokenBaseRefutes, MarksAreRight, NegationsOfFollowing, StuckPositionsCount};
ghost use Rattle.play.specs.Stranded.{UnsoundWhenStuck, UnsoundWhenCut};
ghost use Rattle.play.specs.Example.{Worked};

// A property whose base and step hold is true everywhere.
pub fn induction<P, J>()
    ensures { (G : Game P J) → Induction G }
{}

// A docket that grew by such properties has only properties that are true everywhere.
pub fn dockets_are_true<P, J>()
    ensures { (G : Game P J) → DocketsAreTrue G }
{}

// The base says that the property is true at the initial position.
pub fn base_says<P, J>()
    ensures { (G : Game P J) → BaseSays G }
{}

// The step says what sequences one move longer satisfy.
pub fn step_says<P, J>()
    ensures { (G : Game P J) → StepSays G }
{}

// A play that breaks the base shows that the property is not true everywhere.
pub fn broken_base_refutes<P, J>()
    ensures { (G : Game P J) → BrokenBaseRefutes G }
{}

// Whether a play breaks a part is a truth value that can be computed.
pub fn marks_are_right<P, J>()
    ensures { (G : Game P J) → MarksAreRight G }
{}

// Positions past a property's degree do not matter to it.
pub fn prefixes_decide<P, J>()
    ensures { (G : Game P J) → PrefixesDecide G }
{}

// What is true at a position is satisfied by longer complete sequences from it.
pub fn longer_sequences_satisfy<P, J>()
    ensures { (G : Game P J) → LongerSequencesSatisfy G }
{}

// Not-following and following-not differ where play has ended, and only there.
pub fn negations_of_following<P, J>()
    ensures { (G : Game P J) → NegationsOfFollowing G }
{}

// A stuck position is judged like any other by properties of degree 0, and by no other.
pub fn stuck_positions_count<P, J>()
    ensures { (G : Game P J) → StuckPositionsCount G }
{}

// With a property of degree n + 2 assumed a step would be unsound, where play gets stuck and where it does not.
pub fn deeper_assumptions_are_unsound()
    ensures stuck { UnsoundWhenStuck }
    ensures cut { UnsoundWhenCut }
{}

// The worked example, not both live and old: admitted in one game, broken in the other.
pub fn worked_example()
    ensures { Worked }
{}
