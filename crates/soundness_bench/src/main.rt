// How long the soundness test takes, and the reading of a lock word, which the test does for each object in use. Standard input: a case, a space and how
// often, in decimal. Cases 0 idle, 1 typical and 2 worst test a table and write how many tests found it sound: all of them. Cases 3 flat, 4 reserved, 5
// fat and 6 mixed read lock words and write the sum of owners and depths by them.
#![tactic(auto)]

use lock_table::{Monitor, OBJECTS, Onward, Operation, Phase, Table, ThreadRecord};
use std::io::Read;

const COUNT_LIMIT: u64 = 100_000_000;

// Thread `holder` holds the object, and the threads from `first` to `last` are in its entry chain.
fn contended(table: Table, object: u8, holder: u8, first: u8, last: u8) -> Table {
    let monitor = Monitor {
        depth: 1,
        holder,
        entry: first,
        contention: 0,
        waiting: 0,
    };
    let record = lock_table::no_object().with_word(lock_word::fat_word(u16::from(object)));
    let mut changed = lock_table::set_object(table, object, record.with_monitor(monitor));
    let mut next = 0;
    for number in (first..=last).rev() {
        let thread = ThreadRecord {
            object,
            next,
            operation: Operation::Enter,
            phase: Phase::Queued(Onward::ToCheck),
            ..lock_table::no_thread()
        };
        changed = lock_table::set_thread(changed, number, thread);
        next = number;
    }
    changed
}

// Thread 1 owns every object, by a flat word.
fn all_owned(table: Table) -> Table {
    let owned = lock_table::no_object().with_word(lock_word::flat_word(1, 0));
    Table {
        objects: [owned; OBJECTS as usize],
        ..table
    }
}

// A fresh table of these sizes, which are in range in each case.
fn fresh_table(threads: u16, objects: u16) -> Table {
    match lock_table::fresh(lock_table::sized_request(threads, objects, false)) {
        Ok(table) => table,
        Err(_) => lock_table::no_table(),
    }
}

fn case_table(number: u8) -> Table {
    if number == 0 {
        return fresh_table(32, 64);
    }
    if number == 1 {
        let one = contended(fresh_table(8, 16), 1, 1, 4, 5);
        let two = contended(one, 2, 2, 6, 7);
        return contended(two, 3, 3, 8, 8);
    }
    contended(all_owned(fresh_table(32, 64)), 1, 1, 2, 32)
}

// Object 16 has another word for each test, so that none can be left out.
fn sound_answers(table: Table, repeats: u64) -> u64 {
    let mut changed = table;
    let mut answers: u64 = 0;
    for turn in 1..=repeats {
        let word = lock_word::flat_word(1, (turn % 64) as u8);
        changed.objects[15] = lock_table::no_object().with_word(word);
        if lock_soundness::sound(changed) {
            answers = answers % COUNT_LIMIT + 1;
        }
    }
    answers
}

// The owner's number and depth by a word, added up; of a fat word thread 1 is the holder, at depth 1.
fn owned_by(word: u32) -> u64 {
    let Some(meaning) = lock_word::read_word(word) else {
        return 0;
    };
    let ownership = lock_word::ownership_of(lock_word::seen_word(meaning), 1, 1);
    u64::from(ownership.thread) + u64::from(ownership.depth)
}

// A word of a case: flat, reserved, fat, or of mixed kinds, flat, none, reserved and none by turns. The remainder bounds the sum.
fn case_word(number: u8, place: usize) -> u32 {
    let place = (place % 64) as u32;
    match number {
        3 => 0x100 + place * 4,
        4 => 0x102 + place * 4,
        5 => 0x101 + place * 0x100,
        _ => 0x100 + place * 5,
    }
}

fn case_words(number: u8) -> [u32; 64] {
    let mut words = [0; 64];
    for (place, word) in words.iter_mut().enumerate() {
        *word = case_word(number, place);
    }
    words
}

// The words lie in memory, so that nothing is known of them where they are read.
fn owned_sum(words: &[u32; 64], repeats: u64) -> u64 {
    let mut sum: u64 = 0;
    for turn in 1..=repeats {
        sum = sum.wrapping_add(owned_by(words[(turn % 64) as usize]));
    }
    sum
}

// How often a table is found sound, or what words say.
fn measured(number: u8, repeats: u64) -> u64 {
    if number < 3 {
        return sound_answers(case_table(number), repeats);
    }
    owned_sum(&case_words(number), repeats)
}

// The decimal number behind the first two bytes.
fn count_read(input: &[u8; 11]) -> u64 {
    let mut count = 0;
    for byte in &input[2..] {
        if b'0' <= *byte {
            count = count % COUNT_LIMIT * 10 + u64::from(*byte % 16);
        }
    }
    count
}

fn main(rt: HostRuntime) {
    // room for a case, a space and nine digits
    let mut input = [0; 11];
    let mut stdin = rt.stdin();
    // a shorter input leaves zeros behind it
    let _ = stdin.read_exact(&mut input);
    let number = input[0] % 16;
    let answer = measured(number, count_read(&input));
    let _ = println!(rt; "{answer}");
}
