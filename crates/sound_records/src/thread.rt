// What soundness asks of one thread's record, by its phase and the one it carries; the definitions have document 01's numbers of these.
ghost use Rattle.std.specs.Prelude.{◌≡◌, eqb, not};
ghost use Rattle.lock_table.specs.Phase.{phase_number, onward_number, carried_number};
ghost use Rattle.lock_table.specs.Parked.{chain_named};
ghost use Rattle.lock_table.specs.declared.operation.Operation.TheVariants.{Enter, Exit};
ghost use Rattle.sound_records.specs.Records.{uses_phase, carries_phase, operation_fits, kept_count_fits, reserved_for, kept_fits, empty_thread};
ghost use Rattle.sound_records.specs.Records.{saves_depth, saved_fits, unused_fits, used_thread_fits, names_chain, falls_behind};
ghost use Rattle.sound_records.specs.Records.{wait_uses, resumes, ticks_fit};
ghost use Rattle.sound_records.specs.OnePass.{chain_number, rank_there, member_passes, thread_passes};

use crate::choice::implies;
use chains::Chain;
use lock_table::{Onward, Operation, Phase, RANKS, ThreadRecord, is_thread, no_thread};
use lock_word::{COUNT_LIMIT, DEPTH_LIMIT, LockWord, TICK_LIMIT};

// The largest counts of a kept word: storing it adds one for enter and takes one off for exit.
const ENTER_COUNT_LIMIT: u8 = COUNT_LIMIT - 1;

const EXIT_COUNT_LIMIT: u8 = COUNT_LIMIT;

// The phases of a wait, timed or not: those that it uses, and those that it can carry.
#[tactic(auto, unfolding(lock_table::specs::Phase::phase_number))]
fn wait_uses(phase: Phase) -> bool
    ensures { result ≡ wait_uses (phase_number phase) }
{
    matches!(
        phase,
        Phase::Look
            | Phase::Cancel
            | Phase::GoIn
            | Phase::Queued(_)
            | Phase::Inflate
            | Phase::GiveUp
            | Phase::Waiting
            | Phase::Resume
    )
}

// The phases that an exit uses.
#[tactic(auto, unfolding(crate::specs::Records::uses_phase, lock_table::specs::Phase::phase_number))]
fn exit_uses(phase: Phase) -> bool
    ensures { result ≡ uses_phase Exit (phase_number phase) }
{
    matches!(
        phase,
        Phase::Look
            | Phase::Store
            | Phase::GoIn
            | Phase::Queued(_)
            | Phase::Test
            | Phase::Tell
            | Phase::Leave
    )
}

// The phases that an enter uses.
#[tactic(auto, unfolding(crate::specs::Records::uses_phase, lock_table::specs::Phase::phase_number))]
fn enter_uses(phase: Phase) -> bool
    ensures { result ≡ uses_phase Enter (phase_number phase) }
{
    matches!(
        phase,
        Phase::Look
            | Phase::Store
            | Phase::Cancel
            | Phase::GoIn
            | Phase::Queued(_)
            | Phase::Check
            | Phase::Try
            | Phase::Contending
    )
}

#[tactic(auto, unfolding(lock_table::specs::Phase::phase_number))]
fn is_look(phase: Phase) -> bool
    ensures { result ≡ eqb (phase_number phase) 1 }
{
    matches!(phase, Phase::Look)
}

// The phases that each operation uses.
#[tactic(auto, unfolding(crate::specs::Records::uses_phase))]
fn uses_phase(operation: Operation, phase: Phase) -> bool
    ensures { result ≡ uses_phase operation (phase_number phase) }
{
    match operation {
        Operation::Idle => false,
        Operation::Enter => enter_uses(phase),
        Operation::Exit => exit_uses(phase),
        Operation::Wait | Operation::TimedWait => wait_uses(phase),
        Operation::Notify | Operation::NotifyAll => is_look(phase),
    }
}

// The phases that a queued thread can carry.
#[tactic(auto, unfolding(crate::specs::Records::carries_phase, lock_table::specs::Phase::onward_number))]
fn carries_phase(operation: Operation, onward: Onward) -> bool
    ensures { result ≡ carries_phase operation (onward_number onward) }
{
    match operation {
        Operation::Enter => matches!(onward, Onward::ToCheck),
        Operation::Exit => matches!(onward, Onward::ToTell),
        Operation::Wait | Operation::TimedWait => {
            matches!(onward, Onward::ToInflate | Onward::ToResume)
        }
        Operation::Idle | Operation::Notify | Operation::NotifyAll => false,
    }
}

// A thread that is not idle has an object, and a phase that its operation uses.
#[tactic(auto, unfolding(crate::specs::Records::operation_fits, lock_table::specs::Phase::phase_number, lock_table::specs::Phase::carried_number))]
fn operation_fits(objects: u8, thread: ThreadRecord) -> bool
    ensures { result ≡ operation_fits objects (phase_number thread.phase) (carried_number thread.phase) thread }
{
    let carries = match thread.phase {
        Phase::Idle => return true,
        Phase::Queued(onward) => carries_phase(thread.operation, onward),
        _ => true,
    };
    (1..=objects).contains(&thread.object) & uses_phase(thread.operation, thread.phase) & carries
}

#[tactic(auto, unfolding(crate::specs::Records::kept_count_fits))]
fn kept_count_fits(operation: Operation, count: u8) -> bool
    ensures { result ≡ kept_count_fits operation count }
{
    match operation {
        Operation::Enter => count <= ENTER_COUNT_LIMIT,
        Operation::Exit => (1..=EXIT_COUNT_LIMIT).contains(&count),
        _ => false,
    }
}

// Reserved for this thread, with a count that the operation can store the next of.
#[tactic(auto, unfolding(crate::specs::Records::reserved_for))]
fn reserved_for(number: u8, operation: Operation, decoded: Option<LockWord>) -> bool
    ensures { result ≡ reserved_for number operation decoded }
{
    match decoded {
        Some(LockWord::Reserved(thread, count)) => (thread.value() == u16::from(number))
            & kept_count_fits(operation, count),
        _ => false,
    }
}

#[tactic(auto, unfolding(crate::specs::Records::kept_fits, lock_table::specs::Phase::phase_number))]
fn kept_fits(number: u8, thread: ThreadRecord) -> bool
    ensures { result ≡ kept_fits number (phase_number thread.phase) thread }
{
    match thread.phase {
        Phase::Store => reserved_for(number, thread.operation, lock_word::read_word(thread.kept)),
        _ => true,
    }
}

// The phases in which a saved depth is used.
#[tactic(auto, unfolding(crate::specs::Records::saves_depth, lock_table::specs::Phase::phase_number, lock_table::specs::Phase::carried_number, lock_table::specs::Phase::onward_number))]
fn saves_depth(phase: Phase) -> bool
    ensures { result ≡ saves_depth (phase_number phase) (carried_number phase) }
{
    matches!(
        phase,
        Phase::Waiting | Phase::Resume | Phase::Queued(Onward::ToResume)
    )
}

#[tactic(auto, unfolding(crate::specs::Records::saved_fits))]
fn saved_fits(thread: ThreadRecord) -> bool
    ensures { result ≡ saved_fits (phase_number thread.phase) (carried_number thread.phase) thread }
{
    implies(
        saves_depth(thread.phase),
        (1..=DEPTH_LIMIT).contains(&thread.saved),
    )
}

// The phases that a timed wait comes to when it has run out.
#[tactic(auto, unfolding(lock_table::specs::Phase::phase_number, lock_table::specs::Phase::carried_number, lock_table::specs::Phase::onward_number))]
fn resumes(phase: Phase) -> bool
    ensures { result ≡ resumes (phase_number phase) (carried_number phase) }
{
    matches!(phase, Phase::Resume | Phase::Queued(Onward::ToResume))
}

// A timed wait has ticks left, or has run out; no other operation has ticks.
#[tactic(auto, unfolding(crate::specs::Records::ticks_fit))]
fn ticks_fit(thread: ThreadRecord) -> bool
    ensures { result ≡ ticks_fit (phase_number thread.phase) (carried_number thread.phase) thread }
{
    let ticks = thread.ticks;
    match thread.operation {
        Operation::TimedWait => (1..=TICK_LIMIT).contains(&ticks)
            | ((ticks == 0) & resumes(thread.phase)),
        _ => ticks == 0,
    }
}

// Whether a thread in this phase is parked in a chain of its object.
#[tactic(auto, unfolding(lock_table::specs::Parked::chain_named, lock_table::specs::Phase::phase_number))]
fn is_parked(phase: Phase) -> bool
    ensures { result ≡ not (eqb (chain_named (phase_number phase)) 0) }
{
    matches!(phase, Phase::Queued(_) | Phase::Contending | Phase::Waiting)
}

// The thread is parked in this chain of the object.
#[tactic(auto, unfolding(crate::specs::Records::names_chain, lock_table::specs::Parked::chain_named, lock_table::specs::Phase::phase_number))]
fn names_chain(object: u8, chain: Chain, thread: ThreadRecord) -> bool
    ensures { result ≡ names_chain object (chain_number chain) thread }
{
    let named = match thread.phase {
        Phase::Queued(_) => matches!(chain, Chain::Entry),
        Phase::Contending => matches!(chain, Chain::Contention),
        Phase::Waiting => matches!(chain, Chain::Waiting),
        _ => false,
    };
    (thread.object == object) & named
}

// Whether nobody of a higher rank stands behind a queued thread: `behind` is the rank of who stands there, 0 for nobody.
#[tactic(auto, unfolding(crate::specs::Records::falls_behind, lock_table::specs::Parked::chain_named, lock_table::specs::Phase::phase_number))]
fn falls_behind(thread: ThreadRecord, behind: u8) -> bool
    ensures { result ≡ falls_behind thread behind }
{
    implies(
        matches!(thread.phase, Phase::Queued(_)),
        behind <= thread.rank,
    )
}

// A thread that a walk meets in a chain of the object.
pub fn member_passes(object: u8, chain: Chain, thread: ThreadRecord, behind: u8) -> bool
    ensures { result ≡ member_passes object (chain_number chain) thread behind }
{
    names_chain(object, chain, thread) & falls_behind(thread, behind)
}

// The rank of a thread, by the record at its place: 0 where there is none.
#[tactic(auto, unfolding(crate::specs::OnePass::rank_there))]
pub fn rank_there(number: u8, there: ThreadRecord) -> u8
    ensures { result ≡ rank_there number there }
{
    if is_thread(number) { there.rank } else { 0 }
}

#[tactic(auto, unfolding(lock_table::specs::Phase::phase_number))]
fn is_idle(phase: Phase) -> bool
    ensures { result ≡ eqb (phase_number phase) 0 }
{
    matches!(phase, Phase::Idle)
}

#[tactic(auto, unfolding(lock_table::specs::Phase::phase_number))]
fn is_store(phase: Phase) -> bool
    ensures { result ≡ eqb (phase_number phase) 2 }
{
    matches!(phase, Phase::Store)
}

// Every field that the phase does not use is 0.
#[tactic(auto, unfolding(crate::specs::Records::unused_fits, lock_table::specs::Operation::operation_number))]
fn unused_fits(thread: ThreadRecord) -> bool
    ensures { result ≡ unused_fits (phase_number thread.phase) (carried_number thread.phase) thread }
{
    let idle = implies(
        is_idle(thread.phase),
        matches!(thread.operation, Operation::Idle) & (thread.object == 0),
    );
    let kept = is_store(thread.phase) | (thread.kept == 0);
    let next = is_parked(thread.phase) | (thread.next == 0);
    let saved = saves_depth(thread.phase) | (thread.saved == 0);
    idle & kept & next & saved
}

// A row for each clause about a thread's record.
fn used_thread_fits(objects: u8, number: u8, thread: ThreadRecord) -> bool
    ensures { result ≡ used_thread_fits objects number (phase_number thread.phase) (carried_number thread.phase) thread }
{
    let ranked = thread.rank <= RANKS;
    ranked
        & operation_fits(objects, thread)
        & kept_fits(number, thread)
        & saved_fits(thread)
        & ticks_fit(thread)
        & unused_fits(thread)
}

#[tactic(auto, using(crate::proofs::Same::and_both), unfolding(crate::specs::Records::empty_thread, lock_table::specs::Operation::operation_number, lock_table::specs::Phase::phase_number))]
fn empty_thread(thread: ThreadRecord) -> bool
    ensures { result ≡ empty_thread thread }
{
    thread == no_thread()
}

// An empty record passes at once, and most are. Any other is one of a thread in use, which was met in a walk if it is parked.
#[tactic(auto, unfolding(crate::specs::OnePass::thread_passes))]
pub fn thread_passes(threads: u8, objects: u8, number: u8, thread: ThreadRecord, met: bool) -> bool
    ensures { result ≡ thread_passes threads objects number thread met }
{
    if empty_thread(thread) {
        return true;
    }
    if threads < number {
        return false;
    }
    used_thread_fits(objects, number, thread) & (!is_parked(thread.phase) | met)
}
