// The actions that several rules share, a function for each definition of `lock_rules/specs/Actions.antt`; what they have in common is `keep_object`.
ghost use Rattle.std.specs.Prelude.{◌≡◌};
ghost use Rattle.lock_rules.specs.Actions.{keep_object, go_on, not_owner, finish_committed, finish, finish_word, finish_depth, let_go, inflate, cancel_word, become_holder, raise_flag};

use lock_rules::{Answer, ChainWork, Doing, Effect, Sight, ThreadState, WordChange};
use lock_word::Depth;

// The work on chains, the thread's state and the answer, with word and monitor as they are.
pub fn keep_object(
    sight: Sight,
    work: ChainWork,
    state: ThreadState,
    answer: Answer,
    commits: bool,
) -> Option<Effect>
    ensures { result ≡ keep_object sight work state answer commits }
{
    Some(Effect {
        work,
        state,
        word: WordChange::Unchanged,
        flag: sight.flag,
        holder: sight.holder,
        depth: sight.depth,
        answer,
        commits,
    })
}

pub fn go_on(sight: Sight, doing: Doing) -> Option<Effect>
    ensures { result ≡ go_on sight doing }
{
    keep_object(
        sight,
        ChainWork::Stay,
        ThreadState::Running(doing),
        Answer::GoneOn,
        false,
    )
}

pub fn not_owner(sight: Sight) -> Option<Effect>
    ensures { result ≡ not_owner sight }
{
    keep_object(
        sight,
        ChainWork::Stay,
        ThreadState::Idle,
        Answer::NotOwner,
        true,
    )
}

// An exit that committed at its look finishes.
pub fn finish_committed(sight: Sight) -> Option<Effect>
    ensures { result ≡ finish_committed sight }
{
    keep_object(
        sight,
        ChainWork::Stay,
        ThreadState::Idle,
        Answer::Finished(0),
        false,
    )
}

pub fn finish(sight: Sight) -> Option<Effect>
    ensures { result ≡ finish sight }
{
    keep_object(
        sight,
        ChainWork::Stay,
        ThreadState::Idle,
        Answer::Finished(0),
        true,
    )
}

pub fn finish_word(sight: Sight, word: WordChange) -> Option<Effect>
    ensures { result ≡ finish_word sight word }
{
    Some(Effect {
        work: ChainWork::Stay,
        state: ThreadState::Idle,
        word,
        flag: sight.flag,
        holder: sight.holder,
        depth: sight.depth,
        answer: Answer::Finished(0),
        commits: true,
    })
}

pub fn finish_depth(sight: Sight, depth: Depth, woken: u8) -> Option<Effect>
    ensures { result ≡ finish_depth sight depth woken }
{
    Some(Effect {
        work: ChainWork::Stay,
        state: ThreadState::Idle,
        word: WordChange::Unchanged,
        flag: sight.flag,
        holder: sight.holder,
        depth,
        answer: Answer::Finished(woken),
        commits: true,
    })
}

pub fn let_go(sight: Sight, word: WordChange, depth: Depth, doing: Doing) -> Option<Effect>
    ensures { result ≡ let_go sight word depth doing }
{
    Some(Effect {
        work: ChainWork::Stay,
        state: ThreadState::Running(doing),
        word,
        flag: sight.flag,
        holder: sight.holder,
        depth,
        answer: Answer::GoneOn,
        commits: true,
    })
}

// Word fat, flag down, all contenders to the entry chain, and every queued exit out of it.
pub fn inflate(
    sight: Sight,
    depth: Depth,
    state: ThreadState,
    answer: Answer,
    commits: bool,
) -> Option<Effect>
    ensures { result ≡ inflate sight depth state answer commits }
{
    Some(Effect {
        work: ChainWork::MoveAndLetOut,
        state,
        word: WordChange::Inflated,
        flag: false,
        holder: sight.holder,
        depth,
        answer,
        commits,
    })
}

// The word's reservation cancelled; `look` is where the operation goes back to.
pub fn cancel_word(sight: Sight, work: ChainWork, look: Doing) -> Option<Effect>
    ensures { result ≡ cancel_word sight work look }
{
    Some(Effect {
        work,
        state: ThreadState::Running(look),
        word: WordChange::Cancelled,
        flag: sight.flag,
        holder: sight.holder,
        depth: sight.depth,
        answer: Answer::GoneOn,
        commits: false,
    })
}

pub fn become_holder(thread: u8, sight: Sight, doing: Doing) -> Option<Effect>
    ensures { result ≡ become_holder thread sight doing }
{
    Some(Effect {
        work: ChainWork::Stay,
        state: ThreadState::Running(doing),
        word: WordChange::Unchanged,
        flag: sight.flag,
        holder: thread,
        depth: sight.depth,
        answer: Answer::GoneOn,
        commits: false,
    })
}

pub fn raise_flag(sight: Sight) -> Option<Effect>
    ensures { result ≡ raise_flag sight }
{
    Some(Effect {
        work: ChainWork::Stay,
        state: ThreadState::Running(Doing::EnterTry),
        word: WordChange::Unchanged,
        flag: true,
        holder: sight.holder,
        depth: sight.depth,
        answer: Answer::GoneOn,
        commits: false,
    })
}
