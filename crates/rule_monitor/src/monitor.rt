// Phases 4 to 15: going into the monitor, and what its holder does there.
ghost use Rattle.std.specs.Prelude.{◌≡◌};
ghost use Rattle.lock_rules.specs.Limits.{no_ticks, run_out};
ghost use Rattle.lock_rules.specs.Rules.{onward, go_in_again, go_in, exit_go_in, holder_only, enter_check, enter_try, exit_test, exit_tell, exit_leave, wait_inflate, wait_give_up, wait_resume};

use chains::Chain;
use lock_rules::{
    Answer, ChainWork, Doing, Effect, Limit, OnwardStep, Sight, Suspension, Taken, ThreadState,
};
use lock_word::{DEPTH_LIMIT, Depth, WordSeen};
use rule_actions::{
    become_holder, finish_committed, finish_depth, go_on, inflate, keep_object, raise_flag,
};

fn onward(carried: OnwardStep) -> Doing
    ensures { result ≡ onward carried }
{
    match carried {
        OnwardStep::ToCheck => Doing::EnterCheck,
        OnwardStep::ToTell => Doing::ExitTell,
        OnwardStep::ToInflate(limit) => Doing::WaitInflate(limit),
        OnwardStep::ToResume(suspension) => Doing::WaitResume(suspension),
    }
}

// 4 go in, by the holder itself.
#[tactic(auto, unfolding(lock_rules::specs::Rules::go_in_again))]
fn go_in_again(sight: Sight, carried: OnwardStep) -> Option<Effect>
    ensures { result ≡ go_in_again sight carried }
{
    match carried {
        OnwardStep::ToCheck => {
            if sight.depth == 0 {
                return None;
            }
            if sight.depth < DEPTH_LIMIT {
                return finish_depth(sight, sight.depth + 1, 0);
            }
            keep_object(
                sight,
                ChainWork::Stay,
                ThreadState::Idle,
                Answer::TooDeep,
                true,
            )
        }
        _ => None,
    }
}

// 4 go in; `carried` is what the thread goes on with as holder.
#[tactic(auto, unfolding(lock_rules::specs::Rules::go_in))]
pub fn go_in(thread: u8, sight: Sight, carried: OnwardStep) -> Option<Effect>
    ensures { result ≡ go_in thread sight carried }
{
    if sight.holder == 0 {
        return become_holder(thread, sight, onward(carried));
    }
    if sight.holder == thread {
        return go_in_again(sight, carried);
    }
    keep_object(
        sight,
        ChainWork::Join(Chain::Entry),
        ThreadState::Queued(carried),
        Answer::Parked,
        false,
    )
}

// 4 go in, of an exit: with flag 0 there is nobody to tell, and it does not go in.
#[tactic(auto, unfolding(lock_rules::specs::Rules::exit_go_in))]
pub fn exit_go_in(thread: u8, sight: Sight) -> Option<Effect>
    ensures { result ≡ exit_go_in thread sight }
{
    if sight.flag {
        return go_in(thread, sight, OnwardStep::ToTell);
    }
    finish_committed(sight)
}

// What only the holder may do; 20 for anybody else.
pub fn holder_only(thread: u8, sight: Sight, action: Option<Effect>) -> Option<Effect>
    ensures { result ≡ holder_only thread sight action }
{
    if sight.holder == thread {
        return action;
    }
    None
}

// 6 check.
#[tactic(auto, unfolding(lock_rules::specs::Rules::enter_check))]
pub fn enter_check(thread: u8, sight: Sight, word: WordSeen) -> Option<Effect>
    ensures { result ≡ enter_check thread sight word }
{
    match word {
        WordSeen::Free => raise_flag(sight),
        WordSeen::Fat if sight.depth == 0 => finish_depth(sight, 1, 0),
        WordSeen::Flat(owner, count) if owner == u16::from(thread) => inflate(
            sight,
            Depth::from(count) + 2,
            ThreadState::Idle,
            Answer::Finished(0),
            true,
        ),
        WordSeen::Flat(_, _) => raise_flag(sight),
        _ => None,
    }
}

// 7 try.
#[tactic(auto, unfolding(lock_rules::specs::Rules::enter_try))]
pub fn enter_try(thread: u8, sight: Sight, word: WordSeen) -> Option<Effect>
    ensures { result ≡ enter_try thread sight word }
{
    match word {
        WordSeen::Free => inflate(sight, 1, ThreadState::Idle, Answer::Finished(0), true),
        WordSeen::Flat(owner, _) if owner != u16::from(thread) => keep_object(
            sight,
            ChainWork::JoinAndHand(Chain::Contention),
            ThreadState::Contending,
            Answer::Parked,
            false,
        ),
        _ => None,
    }
}

// 9 test.
#[tactic(auto, unfolding(lock_rules::specs::Rules::exit_test))]
pub fn exit_test(sight: Sight) -> Option<Effect>
    ensures { result ≡ exit_test sight }
{
    if sight.flag {
        return go_on(sight, Doing::ExitGoIn);
    }
    finish_committed(sight)
}

// 10 tell.
#[tactic(auto, unfolding(lock_rules::specs::Rules::exit_tell))]
pub fn exit_tell(sight: Sight) -> Option<Effect>
    ensures { result ≡ exit_tell sight }
{
    if sight.flag {
        if sight.contentionempty {
            return go_on(sight, Doing::ExitLeave);
        }
        return keep_object(
            sight,
            ChainWork::Move(Chain::Contention, Taken::First),
            ThreadState::Running(Doing::ExitLeave),
            Answer::GoneOn,
            false,
        );
    }
    go_on(sight, Doing::ExitLeave)
}

// 11 leave.
#[tactic(auto, unfolding(lock_rules::specs::Rules::exit_leave))]
pub fn exit_leave(sight: Sight) -> Option<Effect>
    ensures { result ≡ exit_leave sight }
{
    if sight.depth == 0 {
        return keep_object(
            sight,
            ChainWork::Hand,
            ThreadState::Idle,
            Answer::Finished(0),
            false,
        );
    }
    None
}

// 12 inflate.
#[tactic(auto, unfolding(lock_rules::specs::Rules::wait_inflate))]
pub fn wait_inflate(thread: u8, sight: Sight, limit: Limit, word: WordSeen) -> Option<Effect>
    ensures { result ≡ wait_inflate thread sight limit word }
{
    match word {
        WordSeen::Flat(owner, count) if owner == u16::from(thread) => inflate(
            sight,
            Depth::from(count) + 1,
            ThreadState::Running(Doing::WaitGiveUp(limit)),
            Answer::GoneOn,
            false,
        ),
        _ => None,
    }
}

// 13 wait.
#[tactic(auto, unfolding(lock_rules::specs::Rules::wait_give_up))]
pub fn wait_give_up(sight: Sight, limit: Limit, word: WordSeen) -> Option<Effect>
    ensures { result ≡ wait_give_up sight limit word }
{
    match word {
        WordSeen::Fat => {
            if sight.depth == 0 {
                return None;
            }
            let suspension = Suspension {
                depth: sight.depth,
                limit,
            };
            keep_object(
                sight,
                ChainWork::JoinAndHand(Chain::Waiting),
                ThreadState::Waiting(suspension),
                Answer::Parked,
                true,
            )
        }
        _ => None,
    }
}

// Whether the ticks of a limit ran out.
#[tactic(auto, unfolding(lock_rules::specs::Limits::no_ticks))]
fn no_ticks(limit: Limit) -> bool
    ensures { result ≡ no_ticks limit }
{
    matches!(limit, Limit::Ticks(0))
}

// The woken number of a wait that resumes: 1 if it ran out, 0 if it was notified.
#[tactic(auto, unfolding(lock_rules::specs::Limits::run_out))]
fn run_out(limit: Limit) -> u8
    ensures { result ≡ run_out limit }
{
    u8::from(no_ticks(limit))
}

// 15 resume.
#[tactic(auto, unfolding(lock_rules::specs::Rules::wait_resume))]
pub fn wait_resume(sight: Sight, suspension: Suspension, word: WordSeen) -> Option<Effect>
    ensures { result ≡ wait_resume sight suspension word }
{
    match word {
        WordSeen::Fat if sight.depth == 0 => {
            finish_depth(sight, suspension.depth, run_out(suspension.limit))
        }
        _ => None,
    }
}
