// The phases of an operation, with document 01's words and numbers.
ghost use Rattle.std.specs.Prelude.{◌≡◌};
ghost use Rattle.lock_table.specs.Phase.{phase_number, onward_number, carried_number, onward_phase};

// What a queued thread goes on with when it becomes the monitor's holder.
#[derive(Clone, Copy, PartialEq, Eq)]
pub enum Onward {
    ToCheck = 6,
    ToTell = 10,
    ToInflate = 12,
    ToResume = 15,
}

#[derive(Clone, Copy, PartialEq, Eq)]
pub enum Phase {
    // 0
    Idle,
    // 1, look: what the lock word allows
    Look,
    // 2, store: the kept reserved word, with its count changed, is about to be written
    Store,
    // 3, cancel: the object's reservation
    Cancel,
    // 4, go in: become the monitor's holder or queue for it
    GoIn,
    // 5: parked in the entry chain
    Queued(Onward),
    // 6, check: the word, as the monitor's holder
    Check,
    // 7, try: the word once more, with the contention flag up
    Try,
    // 8: parked in the contention chain until the flat lock's owner tells
    Contending,
    // 9, test: the contention flag, after the word was freed
    Test,
    // 10, tell: the first contender
    Tell,
    // 11, leave: hand the monitor on
    Leave,
    // 12, inflate: the flat lock of a thread that is to wait
    Inflate,
    // 13, wait: save the depth and give the monitor up
    GiveUp,
    // 14: parked in the waiting chain
    Waiting,
    // 15, resume: take the saved depth back
    Resume,
}

#[tactic(auto, unfolding(crate::specs::Phase::onward_number))]
pub fn onward_number(onward: Onward) -> u8
    ensures { result ≡ onward_number onward }
{
    onward as u8
}

// A match, and no cast as `onward_number` is: a variant carries a phase.
#[tactic(auto, unfolding(crate::specs::Phase::phase_number))]
pub fn phase_number(phase: Phase) -> u8
    ensures { result ≡ phase_number phase }
{
    match phase {
        Phase::Idle => 0,
        Phase::Look => 1,
        Phase::Store => 2,
        Phase::Cancel => 3,
        Phase::GoIn => 4,
        Phase::Queued(_) => 5,
        Phase::Check => 6,
        Phase::Try => 7,
        Phase::Contending => 8,
        Phase::Test => 9,
        Phase::Tell => 10,
        Phase::Leave => 11,
        Phase::Inflate => 12,
        Phase::GiveUp => 13,
        Phase::Waiting => 14,
        Phase::Resume => 15,
    }
}

// The number of the phase that a queued thread carries, 0 for any other.
#[tactic(auto, unfolding(crate::specs::Phase::carried_number))]
pub fn carried_number(phase: Phase) -> u8
    ensures { result ≡ carried_number phase }
{
    match phase {
        Phase::Queued(onward) => onward_number(onward),
        _ => 0,
    }
}

#[tactic(auto, unfolding(crate::specs::Phase::onward_phase))]
pub fn onward_phase(onward: Onward) -> Phase
    ensures { result ≡ onward_phase onward }
{
    match onward {
        Onward::ToCheck => Phase::Check,
        Onward::ToTell => Phase::Tell,
        Onward::ToInflate => Phase::Inflate,
        Onward::ToResume => Phase::Resume,
    }
}
