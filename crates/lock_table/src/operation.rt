// The operations, with document 01's numbers and document 02's.
ghost use Rattle.std.specs.Prelude.{◌≡◌};
ghost use Rattle.lock_table.specs.Operation.{operation_number, operation_from};

#[derive(Clone, Copy, PartialEq, Eq)]
pub enum Operation {
    // none, the thread is idle: a record has number 0 for it (document 01, and the bytes that C sees)
    Idle = 0,
    Enter = 1,
    Exit = 2,
    Wait = 3,
    Notify = 4,
    NotifyAll = 5,
    TimedWait = 6,
}

#[tactic(auto, unfolding(crate::specs::Operation::operation_number))]
pub fn operation_number(operation: Operation) -> u8
    ensures { result ≡ operation_number operation }
{
    operation as u8
}

// The operation of a number; one that is none of theirs gives the idle case, so that it cannot fail, as a TryFrom could.
#[tactic(auto, unfolding(crate::specs::Operation::operation_from))]
pub fn operation_from(number: u8) -> Operation
    ensures { result ≡ operation_from number }
{
    match number {
        1 => Operation::Enter,
        2 => Operation::Exit,
        3 => Operation::Wait,
        4 => Operation::Notify,
        5 => Operation::NotifyAll,
        6 => Operation::TimedWait,
        _ => Operation::Idle,
    }
}
