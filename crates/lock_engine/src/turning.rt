// An event on the records that it touches: its thread's and that of the object it is about. No table is looked at.
ghost use Rattle.std.specs.Prelude.{◌≡◌, ltb};
ghost use Rattle.laws.specs.Choice.{pick};
ghost use Rattle.lock_word.specs.Ticks.{tick_limit};
ghost use Rattle.lock_engine.specs.Turn.{replying, refused, given_ticks, begun, begin_turn, tick_turn, effect_turn, action_turn, word_turn, state_turn, step_turn, open_turn, gate_turn, take_turn};

use crate::outcome::Reply;
use lock_gate::{gate, thread_status};
use lock_perform::{object_after, read_thread, sight_with, write_thread};
use lock_rules::{Answer, ChainWork, Doing, Effect, Event, Refusal, ThreadState};
use lock_table::{Activity, OBJECTS, ObjectRecord, Operation, Phase, ThreadRecord, operation_from};
use lock_word::{LockWord, TICK_LIMIT, Ticks, read_word, seen_word};
use lock_work::Work;
use rule_decide::decide;

// What an event makes of the two records, the work that is left to do, and what it replies.
#[derive(Clone, Copy)]
pub struct Turn {
    pub own: ThreadRecord,
    pub object: ObjectRecord,
    pub work: Work,
    pub reply: Reply,
    pub commits: bool,
}

// The two records that an event touches: its thread's and that of the object it is about. `turn_with` and `work_done` take them one by one: `work_done`
// belongs to a crate below, and callers of `turn_with` in other crates have them apart.
#[derive(Clone, Copy)]
pub(crate) struct Records {
    pub own: ThreadRecord,
    pub object: ObjectRecord,
}

// The ticks of a limit that the gate has let through; of any other, as many as there can be.
fn narrow_limit(limit: u32) -> Ticks
    ensures { result ≡ pick (ltb tick_limit limit) tick_limit limit }
{
    Ticks::try_from(limit).unwrap_or(TICK_LIMIT)
}

// The limit of a timed wait; no other operation has ticks.
#[tactic(auto, unfolding(crate::specs::Turn::given_ticks))]
fn given_ticks(operation: Operation, limit: u32) -> Ticks
    ensures { result ≡ given_ticks operation limit }
{
    match operation {
        Operation::TimedWait => narrow_limit(limit),
        _ => 0,
    }
}

// The record of a thread that begins the operation on the object with this number.
pub fn begun(own: ThreadRecord, operation: Operation, number: u8, limit: u32) -> ThreadRecord
    ensures { result ≡ begun own operation number limit }
{
    own.with_activity(Activity {
        kept: 0,
        saved: 0,
        ticks: given_ticks(operation, limit),
        object: number,
        operation,
        phase: Phase::Look,
    })
}

impl Records {
    // Both records as they are, with this reply and nothing left to do.
    fn replying(self, reply: Reply) -> Turn
        ensures { result ≡ replying self.own self.object reply }
    {
        Turn {
            own: self.own,
            object: self.object,
            work: Work::Chains(ChainWork::Stay),
            reply,
            commits: false,
        }
    }

    fn refused(self, refusal: Refusal) -> Turn
        ensures { result ≡ refused self.own self.object refusal }
    {
        self.replying(Reply::Refused(refusal))
    }

    fn begin_turn(self, operation: Operation, number: u8, limit: u32) -> Turn
        ensures { result ≡ begin_turn self.own self.object operation number limit }
    {
        Turn {
            own: begun(self.own, operation, number, limit),
            ..self.replying(Reply::Accepted)
        }
    }

    // A tick leaves the two records that it reads to the work.
    fn tick_turn(self) -> Turn
        ensures { result ≡ tick_turn self.own self.object }
    {
        Turn {
            work: Work::Tick,
            ..self.replying(Reply::Accepted)
        }
    }

    fn effect_turn(self, thread: u8, effect: Effect) -> Turn
        ensures { result ≡ effect_turn thread self.own self.object effect }
    {
        Turn {
            own: write_thread(thread, self.own.object, effect.state, self.own),
            object: object_after(thread, self.own.object, self.object, effect),
            work: Work::Chains(effect.work),
            reply: Reply::Answered(effect.answer),
            commits: effect.commits,
        }
    }

    // 20 leaves both records.
    #[tactic(auto, unfolding(crate::specs::Turn::action_turn))]
    fn action_turn(self, thread: u8, action: Option<Effect>) -> Turn
        ensures { result ≡ action_turn thread self.own self.object action }
    {
        match action {
            Some(effect) => self.effect_turn(thread, effect),
            None => self.replying(Reply::Answered(Answer::NoRule)),
        }
    }

    // What is no lock word is no sound table's; the test before has seen to it that this does not occur.
    #[tactic(auto, unfolding(crate::specs::Turn::word_turn))]
    fn word_turn(self, thread: u8, waiters: u8, doing: Doing, decoded: Option<LockWord>) -> Turn
        ensures { result ≡ word_turn thread self.own self.object waiters doing decoded }
    {
        let Some(word) = decoded else {
            return self.refused(Refusal::NotSound);
        };
        let sight = sight_with(self.object, seen_word(word), waiters);
        self.action_turn(thread, decide(thread, sight, doing))
    }

    #[tactic(auto, unfolding(crate::specs::Turn::state_turn))]
    fn state_turn(self, thread: u8, waiters: u8, state: ThreadState) -> Turn
        ensures { result ≡ state_turn thread self.own self.object waiters state }
    {
        match state {
            ThreadState::Running(doing) => {
                self.word_turn(thread, waiters, doing, read_word(self.object.word))
            }
            _ => self.refused(Refusal::NotSound),
        }
    }

    #[tactic(auto, unfolding(crate::specs::Turn::step_turn))]
    fn step_turn(self, thread: u8, waiters: u8) -> Turn
        ensures { result ≡ step_turn thread self.own self.object waiters }
    {
        if (1..=OBJECTS).contains(&self.own.object) {
            return self.state_turn(thread, waiters, read_thread(self.own));
        }
        self.refused(Refusal::NotSound)
    }

    #[tactic(auto, unfolding(crate::specs::Turn::open_turn))]
    fn open_turn(self, event: Event, waiters: u8) -> Turn
        ensures { result ≡ open_turn event self.own self.object waiters }
    {
        match event {
            Event::Begin {
                operation,
                object,
                limit,
                ..
            } => self.begin_turn(operation_from(operation), object, limit),
            Event::Step { thread } => self.step_turn(thread, waiters),
            Event::Tick => self.tick_turn(),
        }
    }

    #[tactic(auto, unfolding(crate::specs::Turn::gate_turn))]
    fn gate_turn(self, gate: Result<(), Refusal>, event: Event, waiters: u8) -> Turn
        ensures { result ≡ gate_turn gate event self.own self.object waiters }
    {
        match gate {
            Ok(()) => self.open_turn(event, waiters),
            Err(refusal) => self.refused(refusal),
        }
    }

    // The event on a table that is sound or not and has so many threads and objects.
    pub(crate) fn take_turn(
        self,
        issound: bool,
        threads: u8,
        objects: u8,
        event: Event,
        waiters: u8,
    ) -> Turn
        ensures { result ≡ take_turn issound threads objects event self.own self.object waiters }
    {
        let gate = gate(
            issound,
            threads,
            objects,
            event,
            thread_status(self.own.phase),
        );
        self.gate_turn(gate, event, waiters)
    }
}
