// The rules of phases 1 to 3, computed: each function is the definition of the same name in lock_rules (document 01, "Steps").
#![tactic(auto)]

mod look;

pub use look::{
    cancel, enter_look, enter_store, exit_owned, exit_store, notify_all_owned, notify_owned,
    owner_only, owner_seen, wait_owned,
};
