// The exports for C: each calls the function of its name in `lock_engine_c` and states its clauses again. A crate is a library or a static library, not
// both, so these stand apart from the library that other crates use.
#![tactic(auto)]

mod calls;
mod dispatching;
mod giving;
mod questions;
mod running;
