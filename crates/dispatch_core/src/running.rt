// The run. The table and the cursors stand in this one function. A step is the engine's, which is lent the table; nothing else in the loop sees it.
ghost use Rattle.std.specs.Prelude.{◌≡◌, ◌≤◌, ◌<◌};
ghost use Rattle.dispatch_rules.specs.Dispatch.{most_steps, steps_room, scripted, dispatched, run_scripts, traced};

use crate::checking::dispatch_answer;
use crate::position::{first_position, goes_on, is_step, most_steps, next_position};
use crate::script::{begins, cursor_after, record_ready};
use crate::trace::{put_entry, trace_entry};
use dispatch_rules::{Dispatched, ScriptCursor, ScriptRun};
use lock_engine::handle_in_place;
use lock_gate::thread_status;
use lock_rules::Event;
use lock_table::{THREADS, Table, thread_place};

// Runs the scripts from the given cursors on, round after round, until a round is without a step. `lent` records were lent; those of the table's threads are
// the first cursors. Refused, it changes nothing. Soundness is tested once, before the loop: every event keeps it. A begin is made on the record that
// the step is then taken from, since it changes nothing else.
#[tactic(auto, using(lock_table::proofs::Places::place_inside))]
pub fn run_scripts(
    table: Table,
    quantum: u32,
    scripts: &[u8],
    cursors: [ScriptCursor; THREADS as usize],
    lent: usize,
    trace: &mut [u64],
) -> ScriptRun
    ensures value { result ≡ run_scripts scripts.now quantum lent (scripted table cursors) }
    ensures trace_after { trace.new ≡ traced 0 trace.old (dispatched scripts.now quantum lent (scripted table cursors)).steps }
    ensures few { (result.dispatched.steps ≤ most_steps table.threadcount cursors) × (result.dispatched.steps < steps_room) }
{
    let answer = dispatch_answer(table, quantum, scripts, cursors, lent);
    let threads = table.threadcount;
    let mut changed = table;
    let mut moved = cursors;
    // turns that had a step, which are not the turns of the loop
    let mut steps: usize = 0;
    let mut position = first_position(answer, quantum, most_steps(threads, cursors));
    while 0 < position.left {
        let thread = position.thread;
        let place = thread_place(thread);
        let before = changed.threads[place];
        let cursor = moved[place];
        let begun = begins(thread_status(before.phase), cursor);
        changed.threads[place] = record_ready(begun, scripts, before, cursor);
        moved[place] = cursor_after(begun, cursor);
        let done = handle_in_place(&mut changed, Event::Step { thread }, true);
        let took = is_step(done.reply);
        let entry = trace_entry(thread, begun, done);
        put_entry(trace, steps, took, entry);
        steps += usize::from(took);
        position = next_position(threads, quantum, position, took, goes_on(done.reply));
    }
    let dispatched = Dispatched {
        table: changed,
        answer,
        steps: steps as u64,
    };
    ScriptRun {
        cursors: moved,
        dispatched,
    }
}
