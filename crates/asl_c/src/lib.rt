// The library for C: the entry points of `asl` under the names that include/asl.h declares, each with its promise said again. A crate is a
// library for Rattle or one for C, so they stand apart.
#![tactic(auto)]

mod by;
mod calls;
mod sum;
