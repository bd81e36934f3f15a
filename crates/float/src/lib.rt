// float.rs of miratope-core, with document 01's stand-ins for the root and the cosine.
#![tactic(auto)]

pub mod constants; // constants.rt: the constants that diagrams and mirrors take
pub mod cosine; // cosine.rt: fcos
pub mod decimal; // decimal.rt: the value of a literal
pub mod root; // root.rt: fsqrt
