// Phases 1 to 3: looking at the word, storing the kept word, cancelling a reservation.
ghost use Rattle.std.specs.Prelude.{◌≡◌};
ghost use Rattle.lock_rules.specs.Rules.{owner_seen, enter_look, deflation, exit_owned, wait_owned, notify_owned, notify_all_owned, owner_only, enter_store, exit_store, cancel};

use chains::Chain;
use lock_rules::{Answer, ChainWork, Doing, Effect, Limit, Sight, Taken, ThreadState, WordChange};
use lock_word::{COUNT_LIMIT, WordSeen, owner_of};
use rule_actions::{
    cancel_word, finish, finish_depth, finish_word, go_on, keep_object, let_go, not_owner,
};

// The owner of the object in sight.
pub fn owner_seen(sight: Sight) -> u16
    ensures { result ≡ owner_seen sight }
{
    let word = sight.word;
    owner_of(word, sight.holder, sight.depth)
}

// What only the owner may do; 18 for anybody else.
pub fn owner_only(thread: u8, sight: Sight, owner: u16, action: Option<Effect>) -> Option<Effect>
    ensures { result ≡ owner_only thread sight owner action }
{
    if owner == u16::from(thread) {
        return action;
    }
    not_owner(sight)
}

// 1 look, enter.
#[tactic(auto, unfolding(lock_rules::specs::Rules::enter_look))]
pub fn enter_look(thread: u8, sight: Sight, word: WordSeen) -> Option<Effect>
    ensures { result ≡ enter_look thread sight word }
{
    match word {
        WordSeen::Free => finish_word(sight, WordChange::OwnFlat(0)),
        WordSeen::Anonymous => finish_word(sight, WordChange::OwnReserved(1)),
        WordSeen::Fat => go_on(sight, Doing::EnterGoIn),
        WordSeen::Flat(owner, count) if owner == u16::from(thread) && count < COUNT_LIMIT => {
            finish_word(sight, WordChange::OwnFlat(count + 1))
        }
        WordSeen::Flat(_, _) => go_on(sight, Doing::EnterGoIn),
        WordSeen::Reserved(owner, count) if owner == u16::from(thread) && count < COUNT_LIMIT => {
            go_on(sight, Doing::EnterStore(count))
        }
        WordSeen::Reserved(_, _) => go_on(sight, Doing::EnterCancel),
    }
}

fn deflation(sight: Sight) -> WordChange
    ensures { result ≡ deflation sight }
{
    if sight.entryempty && sight.contentionempty && sight.waiters == 0 {
        return WordChange::Freed;
    }
    WordChange::Unchanged
}

// 1 look, exit, by the owner.
#[tactic(auto, unfolding(lock_rules::specs::Rules::exit_owned))]
pub fn exit_owned(sight: Sight, word: WordSeen) -> Option<Effect>
    ensures { result ≡ exit_owned sight word }
{
    match word {
        WordSeen::Free | WordSeen::Anonymous => not_owner(sight),
        WordSeen::Fat => {
            if 1 < sight.depth {
                return finish_depth(sight, sight.depth - 1, 0);
            }
            let_go(sight, deflation(sight), 0, Doing::ExitLeave)
        }
        WordSeen::Flat(_, count) => {
            if 0 < count {
                return finish_word(sight, WordChange::OwnFlat(count - 1));
            }
            let_go(sight, WordChange::Freed, sight.depth, Doing::ExitTest)
        }
        WordSeen::Reserved(_, count) => go_on(sight, Doing::ExitStore(count)),
    }
}

// 1 look, wait, by the owner.
#[tactic(auto, unfolding(lock_rules::specs::Rules::wait_owned))]
pub fn wait_owned(sight: Sight, limit: Limit, word: WordSeen) -> Option<Effect>
    ensures { result ≡ wait_owned sight limit word }
{
    match word {
        WordSeen::Free | WordSeen::Anonymous => not_owner(sight),
        WordSeen::Fat => go_on(sight, Doing::WaitGiveUp(limit)),
        WordSeen::Flat(_, _) => go_on(sight, Doing::WaitGoIn(limit)),
        WordSeen::Reserved(_, _) => go_on(sight, Doing::WaitCancel(limit)),
    }
}

// 1 look, notify, by the owner.
#[tactic(auto, unfolding(lock_rules::specs::Rules::notify_owned))]
pub fn notify_owned(sight: Sight, word: WordSeen) -> Option<Effect>
    ensures { result ≡ notify_owned sight word }
{
    match word {
        WordSeen::Free | WordSeen::Anonymous => not_owner(sight),
        WordSeen::Fat => {
            if sight.waiters == 0 {
                return finish(sight);
            }
            keep_object(
                sight,
                ChainWork::Move(Chain::Waiting, Taken::First),
                ThreadState::Idle,
                Answer::Finished(1),
                true,
            )
        }
        WordSeen::Flat(_, _) | WordSeen::Reserved(_, _) => finish(sight),
    }
}

// 1 look, notify all, by the owner.
#[tactic(auto, unfolding(lock_rules::specs::Rules::notify_all_owned))]
pub fn notify_all_owned(sight: Sight, word: WordSeen) -> Option<Effect>
    ensures { result ≡ notify_all_owned sight word }
{
    match word {
        WordSeen::Free | WordSeen::Anonymous => not_owner(sight),
        WordSeen::Fat => keep_object(
            sight,
            ChainWork::Move(Chain::Waiting, Taken::All),
            ThreadState::Idle,
            Answer::Finished(sight.waiters),
            true,
        ),
        WordSeen::Flat(_, _) | WordSeen::Reserved(_, _) => finish(sight),
    }
}

// 2 store, enter.
#[tactic(auto, unfolding(lock_rules::specs::Rules::enter_store))]
pub fn enter_store(sight: Sight, count: u8) -> Option<Effect>
    ensures { result ≡ enter_store sight count }
{
    if count < COUNT_LIMIT {
        return finish_word(sight, WordChange::OwnReserved(count + 1));
    }
    None
}

// 2 store, exit.
#[tactic(auto, unfolding(lock_rules::specs::Rules::exit_store))]
pub fn exit_store(sight: Sight, count: u8) -> Option<Effect>
    ensures { result ≡ exit_store sight count }
{
    if count == 0 {
        return None;
    }
    finish_word(sight, WordChange::OwnReserved(count - 1))
}

// 3 cancel; `look` is where the operation goes back to.
#[tactic(auto, unfolding(lock_rules::specs::Rules::cancel))]
pub fn cancel(sight: Sight, look: Doing, word: WordSeen) -> Option<Effect>
    ensures { result ≡ cancel sight look word }
{
    match word {
        WordSeen::Anonymous => cancel_word(sight, ChainWork::Stay, look),
        WordSeen::Reserved(owner, _) => cancel_word(sight, ChainWork::SendBack(owner), look),
        _ => go_on(sight, look),
    }
}
