// The calls that change a table: a fresh one, a begin, a timed wait, a step, a tick.
ghost use Rattle.std.specs.Prelude.{◌≡◌};
ghost use Rattle.lock_rules.specs.Operations.{timed_wait};
ghost use Rattle.table_bytes.specs.Layout.{table_size};
ghost use Rattle.table_bytes.specs.Reading.{is_table};
ghost use Rattle.lock_engine_c.specs.Calls.{event_answer, event_bytes, RefusedTo, RefusedLeaves, begun_on, stepped_on, ticked_on, fresh_on, has_size, fresh_answer, fresh_bytes};

// How many bytes a table has.
#[unsafe(no_mangle)]
pub extern "C" fn duskclamp_table_size() -> usize
    ensures { result ≡ table_size }
{
    lock_engine_c::duskclamp_table_size()
}

// A fresh table with every word free, or with `reserved` not 0 anonymously reserved: 0, or 11 or 22 and the bytes stay.
#[unsafe(no_mangle)]
pub extern "C" fn duskclamp_fresh(
    bytes: &mut [u8],
    threads: u32,
    objects: u32,
    reserved: u32,
) -> u32
    ensures value { result ≡ fresh_answer (has_size bytes.old) (fresh_on threads objects reserved) }
    ensures bytes_after { bytes.new ≡ fresh_bytes (has_size bytes.old) bytes.old (fresh_on threads objects reserved) }
{
    lock_engine_c::duskclamp_fresh(bytes, threads, objects, reserved)
}

// The thread begins the operation with this number on the object, without a limit. Refused, it leaves every byte, and its answer
// carries no set.
#[unsafe(no_mangle)]
pub extern "C" fn duskclamp_begin(bytes: &mut [u8], thread: u32, operation: u32, object: u32) -> u64
    ensures value { result ≡ event_answer (is_table bytes.old) (begun_on bytes.old thread operation object 0) }
    ensures bytes_after { bytes.new ≡ event_bytes (is_table bytes.old) bytes.old (begun_on bytes.old thread operation object 0) }
    ensures refused_to { RefusedTo bytes.old bytes.new result }
{
    lock_engine_c::duskclamp_begin(bytes, thread, operation, object)
}

// The thread begins a timed wait on the object, with this limit in ticks. Refused, it leaves every byte, and its answer carries no set.
#[unsafe(no_mangle)]
pub extern "C" fn duskclamp_timed_wait(
    bytes: &mut [u8],
    thread: u32,
    object: u32,
    limit: u32,
) -> u64
    ensures value { result ≡ event_answer (is_table bytes.old) (begun_on bytes.old thread timed_wait object limit) }
    ensures bytes_after { bytes.new ≡ event_bytes (is_table bytes.old) bytes.old (begun_on bytes.old thread timed_wait object limit) }
    ensures refused_to { RefusedTo bytes.old bytes.new result }
{
    lock_engine_c::duskclamp_timed_wait(bytes, thread, object, limit)
}

// The thread takes one step. Refused, it leaves every byte, and its answer carries no set; with 18 and 19, every byte but those of the thread's record.
#[unsafe(no_mangle)]
pub extern "C" fn duskclamp_step(bytes: &mut [u8], thread: u32) -> u64
    ensures value { result ≡ event_answer (is_table bytes.old) (stepped_on bytes.old thread) }
    ensures bytes_after { bytes.new ≡ event_bytes (is_table bytes.old) bytes.old (stepped_on bytes.old thread) }
    ensures refused_leaves { RefusedLeaves bytes.old thread bytes.new result }
{
    lock_engine_c::duskclamp_step(bytes, thread)
}

// One tick of the clock. Refused, it leaves every byte, and its answer carries no set.
#[unsafe(no_mangle)]
pub extern "C" fn duskclamp_tick(bytes: &mut [u8]) -> u64
    ensures value { result ≡ event_answer (is_table bytes.old) (ticked_on bytes.old) }
    ensures bytes_after { bytes.new ≡ event_bytes (is_table bytes.old) bytes.old (ticked_on bytes.old) }
    ensures refused_to { RefusedTo bytes.old bytes.new result }
{
    lock_engine_c::duskclamp_tick(bytes)
}
