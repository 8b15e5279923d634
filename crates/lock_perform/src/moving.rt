// What the work of a rule on chains does to thread records and to the monitor of the step's object. No table is looked at: lock_work, which is
// lent it, goes along the chains and asks here what becomes of each record.
ghost use Rattle.std.specs.Prelude.{◌≡◌};
ghost use Rattle.laws.specs.Choice.{pick, within};
ghost use Rattle.lock_perform.specs.Moving.{look_again, back_from, sent_back_of, touched_by_move, touched, unlinked, joining, moving};
ghost use Rattle.lock_perform.specs.Moving.{plan_hand, plan_join_and_hand, plan_move, plan, whole_move, moved_whole};
ghost use Rattle.lock_perform.specs.InPlace.{if_record, plan_at};

use crate::thread_set::thread_set;
use chains::Chain;
use lock_rules::{ChainWork, Taken};
use lock_table::{Monitor, Phase, THREADS, ThreadRecord, handed, moved, narrow, no_thread};

// What a work does: the record that it changes as it is then, the monitor before anybody joins a chain of it, whom it unparks, and who joins which
// chain: a thread, or a chain from its first thread on, 0 for nobody, as an empty chain has it.
#[derive(Clone, Copy)]
pub struct ChainPlan {
    pub changed: ThreadRecord,
    pub monitor: Monitor,
    pub unparked: u32,
    pub back: u8,
    pub into: Chain,
}

fn look_again(thread: ThreadRecord) -> ThreadRecord
    ensures { result ≡ look_again thread }
{
    ThreadRecord {
        kept: 0,
        phase: Phase::Look,
        ..thread
    }
}

// A thread in phase 2 goes back to phase 1.
#[tactic(auto, unfolding(crate::specs::Moving::back_from))]
fn back_from(thread: ThreadRecord, phase: Phase) -> ThreadRecord
    ensures { result ≡ back_from thread phase }
{
    match phase {
        Phase::Store => look_again(thread),
        _ => thread,
    }
}

#[tactic(auto, unfolding(crate::specs::Moving::sent_back_of))]
fn sent_back(object: u8, thread: ThreadRecord) -> ThreadRecord
    ensures { result ≡ sent_back_of object thread }
{
    if thread.object == object {
        back_from(thread, thread.phase)
    } else {
        thread
    }
}

fn touched_by_move(monitor: Monitor, from: Chain, taken: Taken) -> u8
    ensures { result ≡ touched_by_move monitor from taken }
{
    match taken {
        Taken::First => monitor.first_in(from),
        Taken::All => 0,
    }
}

// Whose record the work changes, 0 for nobody's, as the monitor's fields have it that are given back. A number beyond the records is nobody's.
pub fn touched(work: ChainWork, monitor: Monitor) -> u8
    ensures { result ≡ touched work monitor }
{
    match work {
        ChainWork::Stay | ChainWork::Join(_) => 0,
        ChainWork::JoinAndHand(_) | ChainWork::Hand => monitor.entry,
        ChainWork::Move(from, taken) => touched_by_move(monitor, from, taken),
        ChainWork::MoveAndLetOut => touched_by_move(monitor, Chain::Contention, Taken::All),
        ChainWork::SendBack(owner) => narrow(u32::from(owner)),
    }
}

fn unlinked(changed: ThreadRecord, monitor: Monitor, unparked: u32) -> ChainPlan
    ensures { result ≡ unlinked changed monitor unparked }
{
    ChainPlan {
        changed,
        monitor,
        unparked,
        back: 0,
        into: Chain::Entry,
    }
}

fn joining(
    changed: ThreadRecord,
    monitor: Monitor,
    unparked: u32,
    chain: Chain,
    thread: u8,
) -> ChainPlan
    ensures { result ≡ joining changed monitor unparked chain thread }
{
    ChainPlan {
        changed,
        monitor,
        unparked,
        back: thread,
        into: chain,
    }
}

fn moving(changed: ThreadRecord, monitor: Monitor, from: Chain, left: u8) -> ChainPlan
    ensures { result ≡ moving changed monitor from left }
{
    let first = monitor.first_in(from);
    ChainPlan {
        changed,
        monitor: monitor.with_first(from, left),
        unparked: 0,
        back: first,
        into: Chain::Entry,
    }
}

fn plan_hand(monitor: Monitor, before: ThreadRecord) -> ChainPlan
    ensures { result ≡ plan_hand monitor before }
{
    let after = monitor.hand(before.next);
    unlinked(handed(before), after.monitor, thread_set(after.thread))
}

fn plan_join_and_hand(monitor: Monitor, before: ThreadRecord, chain: Chain, thread: u8) -> ChainPlan
    ensures { result ≡ plan_join_and_hand monitor before chain thread }
{
    let after = monitor.hand(before.next);
    joining(
        handed(before),
        after.monitor,
        thread_set(after.thread),
        chain,
        thread,
    )
}

fn plan_move(monitor: Monitor, before: ThreadRecord, from: Chain, taken: Taken) -> ChainPlan
    ensures { result ≡ plan_move monitor before from taken }
{
    match taken {
        Taken::First => moving(moved(before).with_next(0), monitor, from, before.next),
        Taken::All => moving(before, monitor, from, 0),
    }
}

// What the work of `thread` at `object` does; `before` is the record that it changes.
fn plan(
    work: ChainWork,
    monitor: Monitor,
    thread: u8,
    object: u8,
    before: ThreadRecord,
) -> ChainPlan
    ensures { result ≡ plan work monitor thread object before }
{
    match work {
        ChainWork::Stay => unlinked(before, monitor, 0),
        ChainWork::Join(chain) => joining(before, monitor, 0, chain, thread),
        ChainWork::JoinAndHand(chain) => plan_join_and_hand(monitor, before, chain, thread),
        ChainWork::Hand => plan_hand(monitor, before),
        ChainWork::Move(from, taken) => plan_move(monitor, before, from, taken),
        ChainWork::MoveAndLetOut => plan_move(monitor, before, Chain::Contention, Taken::All),
        ChainWork::SendBack(_) => unlinked(sent_back(object, before), monitor, 0),
    }
}

// What is there for a number from 1 to `limit`, which has a record, else the other.
pub(crate) fn if_numbered<T: Copy>(limit: u8, number: u8, there: T, other: T) -> T
    ensures { result ≡ pick (within 1 limit number) there other }
{
    if (1..=limit).contains(&number) {
        there
    } else {
        other
    }
}

// The record of a number that has one, else the other.
#[tactic(auto, unfolding(crate::specs::InPlace::if_record))]
pub fn if_record(number: u8, there: ThreadRecord, other: ThreadRecord) -> ThreadRecord
    ensures { result ≡ if_record number there other }
{
    if_numbered(THREADS, number, there, other)
}

// The plan by the record that is at the place of the changed one. Where nobody's changes, that record stays as it is.
pub fn plan_at(
    work: ChainWork,
    monitor: Monitor,
    thread: u8,
    object: u8,
    there: ThreadRecord,
) -> ChainPlan
    ensures { result ≡ plan_at work monitor thread object there }
{
    let number = touched(work, monitor);
    let before = if_record(number, there, no_thread());
    let planned = plan(work, monitor, thread, object, before);
    ChainPlan {
        changed: if_record(number, planned.changed, there),
        ..planned
    }
}

fn whole_move(monitor: Monitor, from: Chain, taken: Taken) -> u8
    ensures { result ≡ whole_move monitor from taken }
{
    match taken {
        Taken::First => 0,
        Taken::All => monitor.first_in(from),
    }
}

// The first of a chain that moves whole, 0 for none, as the monitor has it.
pub fn moved_whole(work: ChainWork, monitor: Monitor) -> u8
    ensures { result ≡ moved_whole work monitor }
{
    match work {
        ChainWork::Move(from, taken) => whole_move(monitor, from, taken),
        ChainWork::MoveAndLetOut => whole_move(monitor, Chain::Contention, Taken::All),
        _ => 0,
    }
}
