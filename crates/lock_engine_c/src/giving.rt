// A fresh table with what its threads are given (document 02, L8).
ghost use Rattle.std.specs.Prelude.{◌≡◌};
ghost use Rattle.lock_engine_c.specs.Calls.{has_size, fresh_answer, fresh_bytes};
ghost use Rattle.lock_engine_c.specs.Given.{given_from, threads_from, fresh_given_on};

use crate::calls::make_fresh;
use lock_table::{FreshRequest, THREADS, ThreadGiven, narrow, no_thread_given};

// What the thread at a place is given.
fn given_from(bytes: &[u8], place: usize) -> ThreadGiven
    ensures { result ≡ given_from bytes.now place }
{
    ThreadGiven {
        rank: bytes.get(place).copied().unwrap_or(0),
    }
}

fn threads_from(bytes: &[u8]) -> [ThreadGiven; THREADS as usize]
    ensures { result ≡ threads_from bytes.now }
{
    let mut given = [no_thread_given(); THREADS as usize];
    for (place, thread) in given.iter_mut().enumerate() {
        *thread = given_from(bytes, place);
    }
    given
}

// A fresh table whose threads are given this: 11, 22 or 27 where there is none, and the bytes are left.
#[tactic(auto, using(lock_table::proofs::Narrowed::narrow_fresh))]
pub fn duskclamp_fresh_given(
    bytes: &mut [u8],
    threads: u32,
    objects: u32,
    reserved: u32,
    given: &[u8],
) -> u32
    ensures value { result ≡ fresh_answer (has_size bytes.old) (fresh_given_on threads objects reserved given.now) }
    ensures bytes_after { bytes.new ≡ fresh_bytes (has_size bytes.old) bytes.old (fresh_given_on threads objects reserved given.now) }
{
    let request = FreshRequest {
        threads: narrow(threads).into(),
        objects: narrow(objects).into(),
        reserved: reserved != 0,
        tothreads: threads_from(given),
    };
    make_fresh(bytes, request)
}
