// A thread's record read as what the thread is doing, and what of it is written. Nothing is kept that the phase does not use.
ghost use Rattle.std.specs.Prelude.{◌≡◌};
ghost use Rattle.lock_word.specs.Write.{reserved_word};
ghost use Rattle.lock_table.specs.declared.phase.Phase.TheVariants.{Store};
ghost use Rattle.lock_perform.specs.State.{limit_of, wait_activity, look_of, store_of, cancel_of, go_in_of, carried_of, state_by, read_thread, activity_of, doing_activity, carried_activity, write_activity, write_thread};

use lock_rules::{Doing, Limit, OnwardStep, Suspension, ThreadState};
use lock_table::{Activity, Onward, Operation, Phase, ThreadRecord, no_activity};
use lock_word::{Depth, Ticks};

// The limit of a wait: a timed one's is the ticks that it has left.
#[tactic(auto, unfolding(crate::specs::State::limit_of))]
fn limit(operation: Operation, ticks: Ticks) -> Limit
    ensures { result ≡ limit_of operation ticks }
{
    match operation {
        Operation::TimedWait => Limit::Ticks(ticks),
        _ => Limit::Unlimited,
    }
}

#[tactic(auto, unfolding(crate::specs::State::look_of))]
fn look(operation: Operation, limit: Limit) -> ThreadState
    ensures { result ≡ look_of operation limit }
{
    match operation {
        Operation::Idle => ThreadState::Idle,
        Operation::Enter => ThreadState::Running(Doing::EnterLook),
        Operation::Exit => ThreadState::Running(Doing::ExitLook),
        Operation::Wait | Operation::TimedWait => ThreadState::Running(Doing::WaitLook(limit)),
        Operation::Notify => ThreadState::Running(Doing::NotifyLook),
        Operation::NotifyAll => ThreadState::Running(Doing::NotifyAllLook),
    }
}

#[tactic(auto, unfolding(crate::specs::State::store_of))]
fn store(operation: Operation, count: u8) -> ThreadState
    ensures { result ≡ store_of operation count }
{
    match operation {
        Operation::Enter => ThreadState::Running(Doing::EnterStore(count)),
        Operation::Exit => ThreadState::Running(Doing::ExitStore(count)),
        _ => ThreadState::Idle,
    }
}

#[tactic(auto, unfolding(crate::specs::State::cancel_of))]
fn cancel(operation: Operation, limit: Limit) -> ThreadState
    ensures { result ≡ cancel_of operation limit }
{
    match operation {
        Operation::Enter => ThreadState::Running(Doing::EnterCancel),
        Operation::Wait | Operation::TimedWait => ThreadState::Running(Doing::WaitCancel(limit)),
        _ => ThreadState::Idle,
    }
}

#[tactic(auto, unfolding(crate::specs::State::go_in_of))]
fn go_in(operation: Operation, limit: Limit) -> ThreadState
    ensures { result ≡ go_in_of operation limit }
{
    match operation {
        Operation::Enter => ThreadState::Running(Doing::EnterGoIn),
        Operation::Exit => ThreadState::Running(Doing::ExitGoIn),
        Operation::Wait | Operation::TimedWait => ThreadState::Running(Doing::WaitGoIn(limit)),
        _ => ThreadState::Idle,
    }
}

#[tactic(auto, unfolding(crate::specs::State::carried_of))]
fn carried(onward: Onward, suspension: Suspension) -> OnwardStep
    ensures { result ≡ carried_of onward suspension }
{
    match onward {
        Onward::ToCheck => OnwardStep::ToCheck,
        Onward::ToTell => OnwardStep::ToTell,
        Onward::ToInflate => OnwardStep::ToInflate(suspension.limit),
        Onward::ToResume => OnwardStep::ToResume(suspension),
    }
}

#[tactic(auto, unfolding(crate::specs::State::state_by))]
fn state(phase: Phase, operation: Operation, count: u8, suspension: Suspension) -> ThreadState
    ensures { result ≡ state_by phase operation count suspension }
{
    let limit = suspension.limit;
    match phase {
        Phase::Idle => ThreadState::Idle,
        Phase::Look => look(operation, limit),
        Phase::Store => store(operation, count),
        Phase::Cancel => cancel(operation, limit),
        Phase::GoIn => go_in(operation, limit),
        Phase::Queued(onward) => ThreadState::Queued(carried(onward, suspension)),
        Phase::Check => ThreadState::Running(Doing::EnterCheck),
        Phase::Try => ThreadState::Running(Doing::EnterTry),
        Phase::Contending => ThreadState::Contending,
        Phase::Test => ThreadState::Running(Doing::ExitTest),
        Phase::Tell => ThreadState::Running(Doing::ExitTell),
        Phase::Leave => ThreadState::Running(Doing::ExitLeave),
        Phase::Inflate => ThreadState::Running(Doing::WaitInflate(limit)),
        Phase::GiveUp => ThreadState::Running(Doing::WaitGiveUp(limit)),
        Phase::Waiting => ThreadState::Waiting(suspension),
        Phase::Resume => ThreadState::Running(Doing::WaitResume(suspension)),
    }
}

// What a thread is doing, by its record.
pub fn read_thread(thread: ThreadRecord) -> ThreadState
    ensures { result ≡ read_thread thread }
{
    let suspension = Suspension {
        depth: thread.saved,
        limit: limit(thread.operation, thread.ticks),
    };
    state(
        thread.phase,
        thread.operation,
        lock_word::kept_count(lock_word::read_word(thread.kept)),
        suspension,
    )
}

// An activity in this phase, with the word and the depth that it keeps.
pub fn activity_of(
    operation: Operation,
    object: u8,
    phase: Phase,
    kept: u32,
    saved: Depth,
) -> Activity
    ensures { result ≡ activity_of operation object phase kept saved }
{
    Activity {
        kept,
        saved,
        ticks: 0,
        object,
        operation,
        phase,
    }
}

// A wait in this phase: one with a limit is a timed wait, which keeps what is left of it.
#[tactic(auto, unfolding(crate::specs::State::wait_activity))]
fn wait_activity(object: u8, phase: Phase, saved: Depth, limit: Limit) -> Activity
    ensures { result ≡ wait_activity object phase saved limit }
{
    match limit {
        Limit::Unlimited => activity_of(Operation::Wait, object, phase, 0, saved),
        Limit::Ticks(left) => Activity {
            ticks: left,
            ..activity_of(Operation::TimedWait, object, phase, 0, saved)
        },
    }
}

// A thread at its store: the kept word is its own reserved word with the count it read.
fn store_activity(operation: Operation, number: u8, object: u8, count: u8) -> Activity
    ensures { result ≡ activity_of operation object Store (reserved_word number count) 0 }
{
    activity_of(
        operation,
        object,
        Phase::Store,
        lock_word::reserved_word(u16::from(number), count),
        0,
    )
}

// A wait that has given up.
#[tactic(auto, unfolding(crate::specs::State::wait_activity))]
fn suspended_activity(object: u8, phase: Phase, suspension: Suspension) -> Activity
    ensures { result ≡ wait_activity object phase suspension.depth suspension.limit }
{
    wait_activity(object, phase, suspension.depth, suspension.limit)
}

#[tactic(auto, unfolding(crate::specs::State::doing_activity))]
fn doing_activity(number: u8, object: u8, doing: Doing) -> Activity
    ensures { result ≡ doing_activity number object doing }
{
    match doing {
        Doing::EnterLook => activity_of(Operation::Enter, object, Phase::Look, 0, 0),
        Doing::EnterStore(count) => store_activity(Operation::Enter, number, object, count),
        Doing::EnterCancel => activity_of(Operation::Enter, object, Phase::Cancel, 0, 0),
        Doing::EnterGoIn => activity_of(Operation::Enter, object, Phase::GoIn, 0, 0),
        Doing::EnterCheck => activity_of(Operation::Enter, object, Phase::Check, 0, 0),
        Doing::EnterTry => activity_of(Operation::Enter, object, Phase::Try, 0, 0),
        Doing::ExitLook => activity_of(Operation::Exit, object, Phase::Look, 0, 0),
        Doing::ExitStore(count) => store_activity(Operation::Exit, number, object, count),
        Doing::ExitGoIn => activity_of(Operation::Exit, object, Phase::GoIn, 0, 0),
        Doing::ExitTest => activity_of(Operation::Exit, object, Phase::Test, 0, 0),
        Doing::ExitTell => activity_of(Operation::Exit, object, Phase::Tell, 0, 0),
        Doing::ExitLeave => activity_of(Operation::Exit, object, Phase::Leave, 0, 0),
        Doing::WaitLook(limit) => wait_activity(object, Phase::Look, 0, limit),
        Doing::WaitCancel(limit) => wait_activity(object, Phase::Cancel, 0, limit),
        Doing::WaitGoIn(limit) => wait_activity(object, Phase::GoIn, 0, limit),
        Doing::WaitInflate(limit) => wait_activity(object, Phase::Inflate, 0, limit),
        Doing::WaitGiveUp(limit) => wait_activity(object, Phase::GiveUp, 0, limit),
        Doing::WaitResume(suspension) => suspended_activity(object, Phase::Resume, suspension),
        Doing::NotifyLook => activity_of(Operation::Notify, object, Phase::Look, 0, 0),
        Doing::NotifyAllLook => activity_of(Operation::NotifyAll, object, Phase::Look, 0, 0),
    }
}

#[tactic(auto, unfolding(crate::specs::State::carried_activity))]
fn carried_activity(object: u8, carried: OnwardStep) -> Activity
    ensures { result ≡ carried_activity object carried }
{
    match carried {
        OnwardStep::ToCheck => activity_of(
            Operation::Enter,
            object,
            Phase::Queued(Onward::ToCheck),
            0,
            0,
        ),
        OnwardStep::ToTell => activity_of(
            Operation::Exit,
            object,
            Phase::Queued(Onward::ToTell),
            0,
            0,
        ),
        OnwardStep::ToInflate(limit) => wait_activity(
            object,
            Phase::Queued(Onward::ToInflate),
            0,
            limit,
        ),
        OnwardStep::ToResume(suspension) => suspended_activity(
            object,
            Phase::Queued(Onward::ToResume),
            suspension,
        ),
    }
}

// What is written of thread `number`, which is at `object` in this state.
#[tactic(auto, unfolding(crate::specs::State::write_activity))]
fn write_activity(number: u8, object: u8, state: ThreadState) -> Activity
    ensures { result ≡ write_activity number object state }
{
    match state {
        ThreadState::Idle => no_activity(),
        ThreadState::Running(doing) => doing_activity(number, object, doing),
        ThreadState::Queued(carried) => carried_activity(object, carried),
        ThreadState::Contending => activity_of(Operation::Enter, object, Phase::Contending, 0, 0),
        ThreadState::Waiting(suspension) => suspended_activity(object, Phase::Waiting, suspension),
    }
}

// The record of a thread in another state: what is no part of its activity stays.
pub fn write_thread(number: u8, object: u8, state: ThreadState, own: ThreadRecord) -> ThreadRecord
    ensures { result ≡ write_thread number object state own }
{
    own.with_activity(write_activity(number, object, state))
}
