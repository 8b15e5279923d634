// The step of a thread that is neither idle nor parked: its phase's rule.
ghost use Rattle.std.specs.Prelude.{◌≡◌};
ghost use Rattle.lock_rules.specs.Rules.{owner_only, owner_seen, decide};

use lock_rules::{Doing, Effect, OnwardStep, Sight};
use rule_look::{
    cancel, enter_look, enter_store, exit_owned, exit_store, notify_all_owned, notify_owned,
    owner_only, owner_seen, wait_owned,
};
use rule_monitor::{
    enter_check, enter_try, exit_go_in, exit_leave, exit_tell, exit_test, go_in, holder_only,
    wait_give_up, wait_inflate, wait_resume,
};

// What the object's owner alone may do, by the word that is seen.
fn by_owner(thread: u8, sight: Sight, action: Option<Effect>) -> Option<Effect>
    ensures { result ≡ owner_only thread sight (owner_seen sight) action }
{
    owner_only(thread, sight, owner_seen(sight), action)
}

#[tactic(auto, unfolding(lock_rules::specs::Rules::decide))]
pub fn decide(thread: u8, sight: Sight, doing: Doing) -> Option<Effect>
    ensures { result ≡ decide thread sight doing }
{
    let word = sight.word;
    match doing {
        Doing::EnterLook => enter_look(thread, sight, word),
        Doing::EnterStore(count) => enter_store(sight, count),
        Doing::EnterCancel => cancel(sight, Doing::EnterLook, word),
        Doing::EnterGoIn => go_in(thread, sight, OnwardStep::ToCheck),
        Doing::EnterCheck => holder_only(thread, sight, enter_check(thread, sight, word)),
        Doing::EnterTry => holder_only(thread, sight, enter_try(thread, sight, word)),
        Doing::ExitLook => by_owner(thread, sight, exit_owned(sight, word)),
        Doing::ExitStore(count) => exit_store(sight, count),
        Doing::ExitGoIn => exit_go_in(thread, sight),
        Doing::ExitTest => exit_test(sight),
        Doing::ExitTell => holder_only(thread, sight, exit_tell(sight)),
        Doing::ExitLeave => holder_only(thread, sight, exit_leave(sight)),
        Doing::WaitLook(limit) => by_owner(thread, sight, wait_owned(sight, limit, word)),
        Doing::WaitCancel(limit) => cancel(sight, Doing::WaitLook(limit), word),
        Doing::WaitGoIn(limit) => go_in(thread, sight, OnwardStep::ToInflate(limit)),
        Doing::WaitInflate(limit) => holder_only(
            thread,
            sight,
            wait_inflate(thread, sight, limit, word),
        ),
        Doing::WaitGiveUp(limit) => holder_only(thread, sight, wait_give_up(sight, limit, word)),
        Doing::WaitResume(suspension) => holder_only(
            thread,
            sight,
            wait_resume(sight, suspension, word),
        ),
        Doing::NotifyLook => by_owner(thread, sight, notify_owned(sight, word)),
        Doing::NotifyAllLook => by_owner(thread, sight, notify_all_owned(sight, word)),
    }
}
