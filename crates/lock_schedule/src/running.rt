// Runs a schedule given in bytes from a fresh table; event_bytes says how its events are written.
ghost use Rattle.std.specs.Prelude.{◌≡◌};
ghost use Rattle.event_bytes.specs.Encoding.{events_of};
ghost use Rattle.lock_schedule.specs.Schedule.{final_of};
ghost use Rattle.lock_schedule.specs.Runs.{run_fresh, run_of, ClaimOfRun, StepsOfRun};

use event_bytes::event_of;
use lock_engine::handle;
use lock_table::{FreshRefusal, FreshRequest, Table};

// The whole schedule; fewer bytes than an event has, left at the end, are none.
fn run_events(table: Table, events: &[u8]) -> Table
    ensures { result ≡ final_of table (events_of events.now) }
{
    let mut current = table;
    let (whole, _) = events.as_chunks();
    for bytes in whole {
        let outcome = handle(current, event_of(bytes));
        current = outcome.table;
    }
    current
}

// With no table made there is nothing to run the schedule on.
#[tactic(auto, unfolding(crate::specs::Runs::run_fresh))]
fn run_made(made: Result<Table, FreshRefusal>, events: &[u8]) -> Result<Table, FreshRefusal>
    ensures { result ≡ run_fresh made (events_of events.now) }
{
    Ok(run_events(made?, events))
}

// The schedule from a fresh table as asked for.
pub fn run(request: FreshRequest, events: &[u8]) -> Result<Table, FreshRefusal>
    ensures same { result ≡ run_of request (events_of events.now) }
    ensures claimed { ClaimOfRun request (events_of events.now) result }
    ensures steps { StepsOfRun request (events_of events.now) result }
{
    run_made(lock_table::fresh(request), events)
}
