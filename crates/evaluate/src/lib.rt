// What the rules of a file mean, and their evaluation.
//
// `strata` and `index` hold the atoms by stratum, `bodies` the value of a body and of an atom's rules, `grid` values by level and
// atom in one lent slice, `rounds` the evaluation of strata on a row of it, `levels` that of levels, one text for every truth form. `models`
// shows people which atoms are true, and `claims` holds the theorems.
//
// Proved: what the evaluation leaves in the grid is the definition by rounds at the meanings of the form, and nothing else is
// touched; over yes and no that is the standard model, the least set stratum by stratum; every form that keeps the laws allows its
// answers, and gives exactly them where the inputs are settled.
#![tactic(auto)]

mod bodies;
pub mod claims;
pub mod grid;
pub mod index;
pub mod indexed;
pub mod levels;
pub mod models;
mod rounds;
pub mod strata;
