// A chain that grows at its end: its first and its last thread, both 0 while it is empty.
ghost use Rattle.std.specs.Prelude.{◌≡◌};
ghost use Rattle.chains.specs.Joining.{first_with, no_ends, grown};

// The first thread of chain `front` with chain `back` hung behind it.
pub fn first_with(front: u8, back: u8) -> u8
    ensures { result ≡ first_with front back }
{
    if front == 0 { back } else { front }
}

#[derive(Clone, Copy)]
pub struct Ends {
    pub first: u8,
    pub last: u8,
}

pub fn no_ends() -> Ends
    ensures { result ≡ no_ends }
{
    Ends { first: 0, last: 0 }
}

impl Ends {
    // The chain with this thread at its end.
    pub fn grown(self, thread: u8) -> Ends
        ensures { result ≡ grown self thread }
    {
        Ends {
            first: first_with(self.first, thread),
            last: thread,
        }
    }
}
