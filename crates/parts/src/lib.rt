// The value of 'this play breaks the part' on the levels of a play, over any truth form.
//
// `part_value` answers it for a play whose levels stand in rows, with a docket of properties that a step may assume; `moves` has the
// rows of a run and the legality of its moves, `table` the values of a property's records by level, in a table behind the rows.
//
// Proved: the answer means the value of the part as it is written once, over any values, in specs/Values; the levels are not
// changed. `claims` says what that value is: over yes and no it is the mark of the play, in any game that reads the standard model
// of the rules, so it is yes exactly if the play breaks the part; at any form it allows the mark of every play that the inputs
// allow, and over settled inputs it is exactly that mark; where it is no, no play that the inputs allow breaks the part.
#![tactic(auto)]

pub mod claims;
pub mod moves;
pub mod part_value;
pub mod table;
