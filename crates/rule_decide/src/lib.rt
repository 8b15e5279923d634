// What a step decides, computed: each function is the definition of the same name in lock_rules (document 01, "Steps").
#![tactic(auto)]

mod rules;

pub use rules::decide;
