// The rules of phases 4 to 15, computed: each function is the definition of the same name in lock_rules (document 01, "Steps").
#![tactic(auto)]

mod monitor;

pub use monitor::{
    enter_check, enter_try, exit_go_in, exit_leave, exit_tell, exit_test, go_in, holder_only,
    wait_give_up, wait_inflate, wait_resume,
};
