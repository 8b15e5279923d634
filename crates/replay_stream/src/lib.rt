// The state of either program, fed a part of its input at a time: whole lines are taken, and what they print is written.
// A line that is too long for any form is answered at once, so that a part of fixed size is always enough.
#![tactic(auto)]

mod ending;
mod feeding;
mod turn;

pub use ending::END_ROOM;
pub use feeding::{Progress, Stream, feed, fresh_stream};
