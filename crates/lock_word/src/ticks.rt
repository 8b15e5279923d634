// How long a timed wait can be: a limit is 1 to this many ticks, and so is what is left of it until it has run out.
pub type Ticks = u16;

pub const TICK_LIMIT: Ticks = 65535;
