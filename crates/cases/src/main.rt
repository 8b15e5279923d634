// Schedules in bytes, eight for each event (event_bytes), each run whole from a fresh table by one call; the expected output is beside it. K7 of
// document 01 is among them. The other cases are executed on the library for C, by tests in Rust (tests/tables).
#![tactic(auto)]

use lock_table::{FreshRefusal, Table};

fn write_number<P: Print>(rt: &P, number: u8) {
    let _ = print!(rt; " {number}");
}

fn write_phase<P: Print>(rt: &P, table: Table, thread: u8) {
    let phase = lock_table::thread_at(&table, thread).phase;
    write_number(rt, lock_table::phase_number(phase));
}

// Six hexadecimal digits, or as many as the word has.
fn write_word<P: Print>(rt: &P, table: Table, object: u8) {
    let word = lock_table::object_at(&table, object).word;
    let _ = print!(rt; " {word:06x}");
}

// The number returned; then, of a table that was made, the phases of threads 1 and 2, and the words of objects 1 and 2.
fn write_run<P: Print>(rt: &P, made: Result<Table, FreshRefusal>) {
    match made {
        Ok(table) => {
            write_number(rt, lock_table::fresh_returned(Ok(())));
            write_phase(rt, table, 1);
            write_phase(rt, table, 2);
            write_word(rt, table, 1);
            write_word(rt, table, 2);
        }
        Err(refusal) => write_number(rt, lock_table::fresh_returned(Err(refusal))),
    }
    let _ = println!(rt; "");
}

// A run's result stays here: what it promises is long, and whoever has the result carries it along, which a check pays for.
fn run_case<P: Print>(
    rt: &P,
    name: &str,
    threads: u16,
    objects: u16,
    reserved: bool,
    events: &[u8],
) {
    let _ = print!(rt; "{name}:");
    let result = lock_schedule::run(
        lock_table::sized_request(threads, objects, reserved),
        events,
    );
    write_run(rt, result);
}

// Document 01's listing, whole and cut off: its eighth event is the exit of thread 1.
fn listing_cases<P: Print>(rt: &P) {
    let listing = *b"\
        \x00\x01\x01\x01\x00\x00\x00\x00\
        \x01\x01\x00\x00\x00\x00\x00\x00\
        \x00\x02\x01\x01\x00\x00\x00\x00\
        \x01\x02\x00\x00\x00\x00\x00\x00\
        \x01\x02\x00\x00\x00\x00\x00\x00\
        \x01\x02\x00\x00\x00\x00\x00\x00\
        \x01\x02\x00\x00\x00\x00\x00\x00\
        \x00\x01\x02\x01\x00\x00\x00\x00\
        \x01\x01\x00\x00\x00\x00\x00\x00\
        \x01\x01\x00\x00\x00\x00\x00\x00\
        \x01\x01\x00\x00\x00\x00\x00\x00\
        \x01\x01\x00\x00\x00\x00\x00\x00\
        \x01\x01\x00\x00\x00\x00\x00\x00\
        \x01\x02\x00\x00\x00\x00\x00\x00\
        \x01\x02\x00\x00\x00\x00\x00\x00";
    run_case(rt, "listing", 2, 1, false, &listing);
    run_case(rt, "listing, 63 bytes", 2, 1, false, &listing[..63]);
    run_case(rt, "listing, 64 bytes", 2, 1, false, &listing[..64]);
}

// What is no event, and what is one but names no kind or no operation.
fn encoding_cases<P: Print>(rt: &P) {
    let begin = *b"\x00\x01\x01\x01\x00\x00\x00\x00";
    run_case(rt, "no bytes", 2, 1, false, b"");
    run_case(rt, "7 bytes", 2, 1, false, &begin[..7]);
    run_case(rt, "8 bytes", 2, 1, false, &begin);
    // begins of no operation and of one too many, and a step of nobody
    let unknown = b"\
        \x00\x01\x00\x01\x00\x00\x00\x00\
        \x00\x01\x06\x01\x00\x00\x00\x00\
        \x01\x03\x00\x00\x00\x00\x00\x00";
    run_case(rt, "refused", 2, 1, false, unknown);
    // the events of two kinds that are none, of thread 1; thread 2 begins behind them
    let kinds = b"\
        \x02\x01\x01\x01\x00\x00\x00\x00\
        \xff\x01\x01\x01\x00\x00\x00\x00\
        \x00\x02\x01\x01\x00\x00\x00\x00";
    run_case(rt, "no such kind", 2, 1, false, kinds);
    // a kind that is none is no step either
    let stays = b"\
        \x00\x01\x01\x01\x00\x00\x00\x00\
        \x02\x01\x00\x00\x00\x00\x00\x00";
    run_case(rt, "no step", 2, 1, false, stays);
}

// Thread 1 enters object 2: the kinds of words, and sizes out of range. The bytes that an event does not read have no meaning.
fn size_cases<P: Print>(rt: &P) {
    let enter = b"\
        \x00\x01\x01\x02\xff\xff\xff\xff\
        \x01\x01\x06\x07\xff\xff\xff\xff";
    run_case(rt, "enter, free", 2, 2, false, enter);
    run_case(rt, "enter, reserved", 2, 2, true, enter);
    run_case(rt, "no threads", 0, 2, true, enter);
    run_case(rt, "65 objects", 2, 65, true, enter);
    run_case(rt, "K7 32", 32, 1, false, b"");
    run_case(rt, "K7 33", 33, 1, false, b"");
}

// Thread 1 enters and waits; thread 2 enters and notifies, then exits, and thread 1 goes on.
fn waiting_cases<P: Print>(rt: &P) {
    let waiting = *b"\
        \x00\x01\x01\x01\x00\x00\x00\x00\
        \x01\x01\x00\x00\x00\x00\x00\x00\
        \x00\x01\x03\x01\x00\x00\x00\x00\
        \x01\x01\x00\x00\x00\x00\x00\x00\
        \x01\x01\x00\x00\x00\x00\x00\x00\
        \x01\x01\x00\x00\x00\x00\x00\x00\
        \x01\x01\x00\x00\x00\x00\x00\x00\
        \x00\x02\x01\x01\x00\x00\x00\x00\
        \x01\x02\x00\x00\x00\x00\x00\x00\
        \x01\x02\x00\x00\x00\x00\x00\x00\
        \x01\x02\x00\x00\x00\x00\x00\x00\
        \x00\x02\x04\x01\x00\x00\x00\x00\
        \x01\x02\x00\x00\x00\x00\x00\x00\
        \x00\x02\x02\x01\x00\x00\x00\x00\
        \x01\x02\x00\x00\x00\x00\x00\x00\
        \x01\x02\x00\x00\x00\x00\x00\x00\
        \x01\x01\x00\x00\x00\x00\x00\x00";
    run_case(rt, "waiting", 2, 1, false, &waiting[..56]);
    run_case(rt, "notified", 2, 1, false, &waiting[..104]);
    run_case(rt, "resumed", 2, 1, false, &waiting);
}

fn main(rt: HostRuntime) {
    listing_cases(&rt);
    encoding_cases(&rt);
    size_cases(&rt);
    waiting_cases(&rt);
}
