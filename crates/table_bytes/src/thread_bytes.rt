// A thread's record in bytes: the record that bytes say, whether there is such a record, and the bytes of a record.
ghost use Rattle.std.specs.Prelude.{◌≡◌};
ghost use Rattle.table_bytes.specs.ThreadBytes.{onward_from, phase_from, carried_known};

use crate::records::Stored;
use lock_table::{
    Onward, Phase, ThreadRecord, carried_number, operation_from, operation_number, phase_number,
};

// How often this layout has changed.
pub(crate) const THREAD_REVISION: u32 = 2;

// How many bytes a record has.
pub(crate) const THREAD_SIZE: usize = 14;

const LAST_OPERATION: u8 = 6;

const LAST_PHASE: u8 = 15;

// The number of the phase that carries another.
const QUEUED: u8 = 5;

// The numbers that the bytes hold are read one by one, and any number reads as some phase: `read_table` cannot fail, and whether the numbers are
// known is `is_table`'s to say. So these are no TryFrom.
#[tactic(auto, unfolding(crate::specs::ThreadBytes::onward_from))]
fn onward_from(carried: u8) -> Onward
    ensures { result ≡ onward_from carried }
{
    match carried {
        6 => Onward::ToCheck,
        10 => Onward::ToTell,
        12 => Onward::ToInflate,
        _ => Onward::ToResume,
    }
}

#[tactic(auto, unfolding(crate::specs::ThreadBytes::phase_from, crate::specs::ThreadBytes::later_phase_from))]
fn phase_from(phase: u8, carried: u8) -> Phase
    ensures { result ≡ phase_from phase carried }
{
    match phase {
        1 => Phase::Look,
        2 => Phase::Store,
        3 => Phase::Cancel,
        4 => Phase::GoIn,
        QUEUED => Phase::Queued(onward_from(carried)),
        6 => Phase::Check,
        7 => Phase::Try,
        8 => Phase::Contending,
        9 => Phase::Test,
        10 => Phase::Tell,
        11 => Phase::Leave,
        12 => Phase::Inflate,
        13 => Phase::GiveUp,
        14 => Phase::Waiting,
        15 => Phase::Resume,
        _ => Phase::Idle,
    }
}

#[tactic(auto, unfolding(crate::specs::ThreadBytes::carried_known))]
fn carried_known(phase: u8, carried: u8) -> bool
    ensures { result ≡ carried_known phase carried }
{
    match phase {
        QUEUED => matches!(carried, 6 | 10 | 12 | 15),
        _ => carried == 0,
    }
}

// Its bytes stand in the order of the layout in specs/ThreadBytes.antt.
impl Stored<THREAD_SIZE> for ThreadRecord {
    ghost use Rattle.std.specs.Prelude.{refl};
    ghost use Rattle.lock_table.specs.Record.{no_thread};
    ghost use Rattle.table_bytes.specs.ThreadBytes.{thread_layout, thread_of, thread_known};

    ghost layout = { thread_layout };

    ghost empty = { no_thread };

    ghost said = { thread_of };

    ghost known = { thread_known };

    ghost sized = { refl };

    fn from_bytes(stored: &[u8; THREAD_SIZE]) -> ThreadRecord {
        let [
            operation,
            object,
            phase,
            carried,
            k0,
            k1,
            k2,
            k3,
            s0,
            s1,
            next,
            t0,
            t1,
            rank,
        ] = *stored;
        ThreadRecord {
            kept: u32::from_le_bytes([k0, k1, k2, k3]),
            saved: u16::from_le_bytes([s0, s1]),
            ticks: u16::from_le_bytes([t0, t1]),
            object,
            next,
            rank,
            operation: operation_from(operation),
            phase: phase_from(phase, carried),
        }
    }

    // It has an operation, a phase and a carried phase that there are.
    fn is_known(stored: &[u8; THREAD_SIZE]) -> bool {
        let [operation, _, phase, carried, ..] = *stored;
        operation <= LAST_OPERATION && phase <= LAST_PHASE && carried_known(phase, carried)
    }

    fn to_bytes(self) -> [u8; THREAD_SIZE] {
        let [k0, k1, k2, k3] = self.kept.to_le_bytes();
        let [s0, s1] = self.saved.to_le_bytes();
        let [t0, t1] = self.ticks.to_le_bytes();
        [
            operation_number(self.operation),
            self.object,
            phase_number(self.phase),
            carried_number(self.phase),
            k0,
            k1,
            k2,
            k3,
            s0,
            s1,
            self.next,
            t0,
            t1,
            self.rank,
        ]
    }
}
