// A run: many events in one call.
ghost use Rattle.std.specs.Prelude.{◌≡◌, length};
ghost use Rattle.table_bytes.specs.Rows.{overwritten};
ghost use Rattle.lock_engine_c.specs.Run.{run_count, run_events, run_answers, run_bytes};

// Runs the events one behind the other, as calls of their own would. What is no table's, or not sound, stays so: it is tested
// once, and every event is answered 11.
#[unsafe(no_mangle)]
pub extern "C" fn duskclamp_run(bytes: &mut [u8], events: &[u8], answers: &mut [u64]) -> usize
    ensures value { result ≡ run_count (length events.now) (length answers.old) }
    ensures answers_after { answers.new ≡ overwritten 0 (run_answers bytes.old (run_events events.now answers.old)) answers.old }
    ensures bytes_after { bytes.new ≡ run_bytes bytes.old (run_events events.now answers.old) }
{
    lock_engine_c::duskclamp_run(bytes, events, answers)
}
