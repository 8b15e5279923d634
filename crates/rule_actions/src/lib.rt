// The actions that several rules share: each function is the definition of the same name in lock_rules.
#![tactic(auto)]

mod actions;

pub use actions::{
    become_holder, cancel_word, finish, finish_committed, finish_depth, finish_word, go_on,
    inflate, keep_object, let_go, not_owner, raise_flag,
};
