// Sets of threads, as 32 bits (document 02, L3).
ghost use Rattle.std.specs.Prelude.{◌≡◌};
ghost use Rattle.lock_perform.specs.ThreadSet.{thread_set};

use lock_table::is_thread;

// A set of threads has bit n - 1 for thread n. This one has the one thread, or nobody for a number that has no record.
#[tactic(auto, unfolding(crate::specs::ThreadSet::thread_set))]
pub(crate) fn thread_set(thread: u8) -> u32
    ensures { result ≡ thread_set thread }
{
    if is_thread(thread) {
        1 << (thread - 1)
    } else {
        0
    }
}
