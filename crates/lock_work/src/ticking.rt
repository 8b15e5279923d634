// A tick at each object: the waiters that run out join the entry chain, and a monitor that nobody holds is handed.
ghost use Rattle.std.specs.Prelude.{◌≡◌};
ghost use Rattle.lock_work.specs.Tick.{handing, tick};

use crate::walking::{part_waiters, queue};
use chains::Chain;
use lock_perform::{plan_at, touched};
use lock_rules::ChainWork;
use lock_table::{Monitor, OBJECTS, Table, thread_place};

// The work that hands a monitor which nobody holds.
#[tactic(auto, unfolding(crate::specs::Tick::handing))]
fn handing(monitor: Monitor) -> ChainWork
    ensures { result ≡ handing monitor }
{
    if monitor.holder == 0 {
        ChainWork::Hand
    } else {
        ChainWork::Stay
    }
}

// All objects, rising. Where nobody waits nobody moves, and a monitor that nobody holds has nobody to be handed to. Those that run out, if there are any,
// join the entry chain, and its first is handed a monitor that nobody holds. Only the hand unparks anybody.
#[tactic(auto, using(lock_table::proofs::Places::place_inside))]
pub(crate) fn tick(table: &mut Table) -> u32
    ensures table { table.new ≡ (tick table.old).table }
    ensures unparked { result ≡ (tick table.old).unparked }
{
    let mut unparked: u32 = 0;
    for done in 0..OBJECTS {
        let home = usize::from(done);
        let object = table.objects[home];
        let waiting = object.monitor.waiting;
        if waiting == 0 {
            continue;
        }
        let parting = part_waiters(table, waiting);
        let first = queue(
            table,
            Chain::Entry,
            object.monitor.entry,
            parting.taken.first,
        );
        let monitor = object
            .monitor
            .move_to_entry(Chain::Waiting, parting.left.first, first);
        let work = handing(monitor);
        let place = thread_place(touched(work, monitor));
        let planned = plan_at(work, monitor, 0, 0, table.threads[place]);
        table.threads[place] = planned.changed;
        unparked |= planned.unparked;
        table.objects[home] = object.with_monitor(planned.monitor);
    }
    unparked
}
