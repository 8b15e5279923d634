// The end of the input, with what stands behind its last newline.
ghost use Rattle.std.specs.Prelude.{◌≡◌, true, ◌≤◌, length};
ghost use Rattle.replay_lines.specs.Cutting.{line_end};
ghost use Rattle.replay_parts.specs.Part.{end_room};
ghost use Rattle.replay_stream.specs.Stream.{FedFrom};

use crate::feeding::{Progress, progressed};
use crate::turn::{close, take_line};
use program_state::State;
use replay_text::{LINE_ROOM, REPORT_ROOM};

// Room for what a last piece without a newline prints, and for what the end prints.
pub const END_ROOM: usize = LINE_ROOM + REPORT_ROOM;

// What is left of a line that was answered already prints nothing; a last piece without a newline is a line of its own. Then the state closes.
pub(crate) fn take_end(state: State, inside: bool, input: &[u8], out: &mut [u8]) -> Progress
    requires { (end_room ≤ length out.old) × (line_end input.now ≡ 0) }
    ensures { FedFrom state inside true input.now out.new result }
{
    if inside || input.is_empty() {
        let end = close(state, out, 0);
        return progressed(end.state, input.len(), end.wrote);
    }
    let issound = replay_session::session_sound(state.session);
    let turn = take_line(state, issound, input, out, 0);
    let end = close(turn.state, out, turn.wrote);
    progressed(end.state, input.len(), end.wrote)
}
