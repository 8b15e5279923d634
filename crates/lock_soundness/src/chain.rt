// Walks along chains, of at most as many links as the table has threads, which mark the threads that they meet.
ghost use Rattle.std.specs.Prelude.{◌≡◌};
ghost use Rattle.sound_records.specs.OnePass.{chain_number};
ghost use Rattle.lock_soundness.specs.OnePass.{chain_passes, chains_pass, chain_marks, chains_marks};

use chains::Chain;
use lock_table::{Monitor, THREADS, Table, is_thread, thread_place};
use sound_records::{member_passes, rank_there};

// The chain ends in time, all of its threads are parked in it, and an entry chain falls in rank.
fn chain_passes(
    table: &Table,
    object: u8,
    chain: Chain,
    first: u8,
    met: &mut [bool; THREADS as usize],
) -> bool
    ensures value { result ≡ chain_passes table.now.threads table.now.threadcount object (chain_number chain) first }
    ensures marks { met.new ≡ chain_marks table.now.threads table.now.threadcount object (chain_number chain) first met.old }
{
    let threadcount = table.threadcount;
    let mut at = first;
    for _ in 0..threadcount {
        if at == 0 {
            return true;
        }
        if threadcount < at {
            return false;
        }
        if !is_thread(at) {
            return false;
        }
        let place = usize::from(at - 1);
        let thread = table.threads[place];
        let behind = rank_there(thread.next, table.threads[thread_place(thread.next)]);
        if !member_passes(object, chain, thread, behind) {
            return false;
        }
        met[place] = true;
        at = thread.next;
    }
    at == 0
}

// The three chains of an object.
#[tactic(auto, unfolding(crate::specs::OnePass::chains_pass, crate::specs::OnePass::chains_marks))]
pub fn chains_pass(
    table: &Table,
    object: u8,
    monitor: Monitor,
    met: &mut [bool; THREADS as usize],
) -> bool
    ensures value { result ≡ chains_pass table.now.threads table.now.threadcount object monitor }
    ensures marks { met.new ≡ chains_marks table.now.threads table.now.threadcount object monitor met.old }
{
    let entry = chain_passes(table, object, Chain::Entry, monitor.entry, met);
    let contention = chain_passes(table, object, Chain::Contention, monitor.contention, met);
    let waiting = chain_passes(table, object, Chain::Waiting, monitor.waiting, met);
    entry & contention & waiting
}
