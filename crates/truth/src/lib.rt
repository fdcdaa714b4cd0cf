// Truth forms: types of truth values that allow yes, no or both in each of some worlds.
//
// `form` has the trait with its laws, `three` a form of one world in an enum, `wide` and
// `wide_form` a form of 64 worlds in two 64-bit numbers.
//
// Proved: both forms keep the laws (sound; settled where the operands are; shut exactly where
// only no is allowed), their operations are Kleene's world by world, and they settle in each
// world by itself.
#![tactic(auto)]

pub mod form;
pub mod three;
pub mod wide;
pub mod wide_form;
