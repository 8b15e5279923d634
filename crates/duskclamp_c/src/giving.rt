// A fresh table with what its threads are given.
ghost use Rattle.std.specs.Prelude.{◌≡◌};
ghost use Rattle.lock_engine_c.specs.Calls.{has_size, fresh_answer, fresh_bytes};
ghost use Rattle.lock_engine_c.specs.Given.{fresh_given_on};

// A fresh table whose threads are given this: 11, 22 or 27 where there is none, and the bytes are left.
#[unsafe(no_mangle)]
pub extern "C" fn duskclamp_fresh_given(
    bytes: &mut [u8],
    threads: u32,
    objects: u32,
    reserved: u32,
    given: &[u8],
) -> u32
    ensures value { result ≡ fresh_answer (has_size bytes.old) (fresh_given_on threads objects reserved given.now) }
    ensures bytes_after { bytes.new ≡ fresh_bytes (has_size bytes.old) bytes.old (fresh_given_on threads objects reserved given.now) }
{
    lock_engine_c::duskclamp_fresh_given(bytes, threads, objects, reserved, given)
}
