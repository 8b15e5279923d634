// A part of the input is taken.
ghost use Rattle.std.specs.Prelude.{◌≡◌, true, false, ◌≤◌, ◌<◌, length};
ghost use Rattle.replay_lines.specs.Cutting.{line_end, line_limit};
ghost use Rattle.replay_text.specs.Text.{line_room};
ghost use Rattle.replay_parts.specs.Part.{HasLine};
ghost use Rattle.replay_session.specs.Trusting.{turn_answer};
ghost use Rattle.lock_table.specs.Access.{thread_at, object_at};
ghost use Rattle.replay_stream.specs.Stream.{fresh_stream, joined, progressed, FedFrom, FedLines};

use crate::ending::{END_ROOM, take_end};
use crate::turn::take_line;
use lock_engine::{Done, handle_in_place, returned};
use lock_gate::{event_object, event_thread};
use lock_table::{Table, object_at, object_place, thread_at};
use program_state::{
    State, event_in_place, fresh_state, largest_after, line_answer, line_reaction, lines_after,
    sound_after,
};
use replay_lines::LINE_LIMIT;
use replay_session::{Session, Stage, turn_answer};
use replay_text::{Answer, LINE_ROOM, put_answer};
use report_tally::{Tally, way_finished, with_enter};

// A state, and whether the input goes on inside a line that was answered already, being too long.
#[derive(Clone, Copy)]
pub struct Stream {
    pub state: State,
    pub inside: bool,
}

#[derive(Clone, Copy)]
pub struct Progress {
    pub stream: Stream,
    pub used: usize,
    pub wrote: usize,
}

// A stream at the start of its input, of the report or of the replay.
pub fn fresh_stream(reporting: bool) -> Stream
    ensures { result ≡ fresh_stream reporting }
{
    Stream {
        state: fresh_state(reporting),
        inside: false,
    }
}

fn joined(reporting: bool, stage: Stage, table: Table, tally: Tally) -> State
    ensures { result ≡ joined reporting stage table tally }
{
    State {
        reporting,
        session: Session { stage, table },
        tally,
    }
}

pub(crate) fn progressed(state: State, used: usize, wrote: usize) -> Progress
    ensures { result ≡ progressed state used wrote }
{
    Progress {
        stream: Stream {
            state,
            inside: false,
        },
        used,
        wrote,
    }
}

// What is printed of an event of a thread, which left this table: by the thread's phase and the object's word in it.
fn event_answer(done: Done, after: &Table, thread: u8, object: u8) -> Answer
    ensures { result ≡ turn_answer done.reply (thread_at after.now thread).phase (object_at after.now object).word done.unparked }
{
    let phase = thread_at(after, thread).phase;
    let word = object_at(after, object).word;
    turn_answer(done.reply, phase, word, done.unparked)
}

// The whole lines at the start of the part, while there is room for what they print. The rest of the part goes to the next line's reader.
// The table is tested once for all of them, and it and the tally stand in this function alone: events are carried out in their place. An event is
// printed or counted when its work is done, which tells whom it unparked.
#[tactic(auto, using(lock_table::proofs::Places::place_inside))]
fn take_lines(start: State, input: &[u8], out: &mut [u8]) -> Progress
    requires { HasLine input.now out.old }
    ensures { FedLines start false input.now out.old out.new result }
{
    let reporting = start.reporting;
    let session = start.session;
    let mut issound = replay_session::session_sound(session);
    let mut stage = session.stage;
    let mut table = session.table;
    let mut tally = start.tally;
    let mut rest = input;
    let mut wrote: usize = 0;
    while LINE_ROOM <= out.len() - wrote {
        let end = replay_lines::line_end(rest);
        if end == 0 {
            break;
        }
        let line = replay_lines::read_line(&rest[..end]);
        rest = &rest[end..];
        let Some(event) = event_in_place(reporting, tally.lines, stage, line) else {
            let reaction = line_reaction(reporting, tally.lines, stage, table, line, issound);
            let session = reaction.session;
            let answer = reaction.answer;
            stage = session.stage;
            table = session.table;
            issound = sound_after(reporting, line, issound);
            tally.largest = largest_after(reporting, tally.largest, line, table.objectcount);
            let said = line_answer(reporting, tally.lines, line, answer);
            tally.lines = lines_after(reporting, tally.lines, line);
            wrote = put_answer(out, wrote, said);
            continue;
        };
        let thread = event_thread(event);
        let own = thread_at(&table, thread);
        let number = event_object(event, own.object);
        let word = object_at(&table, number).word;
        let done = handle_in_place(&mut table, event, issound);
        if reporting {
            let way = way_finished(event, own, word, u16::from(returned(done.reply)));
            let home = object_place(number);
            tally.objects[home] = with_enter(tally.objects[home], way);
            tally.all = with_enter(tally.all, way);
            tally.lines += 1;
        } else {
            wrote = put_answer(out, wrote, event_answer(done, &table, thread, number));
        }
    }
    let used = input.len() - rest.len();
    progressed(joined(reporting, stage, table, tally), used, wrote)
}

// What is left of a line that was answered already.
fn skip_line(state: State, input: &[u8], out: &mut [u8]) -> Progress
    ensures { FedLines state true input.now out.old out.new result }
{
    let end = replay_lines::line_end(input);
    if end != 0 {
        return progressed(state, end, 0);
    }
    Progress {
        stream: Stream {
            state,
            inside: true,
        },
        used: input.len(),
        wrote: 0,
    }
}

// The start of a line that is too long for any form: it is answered, and what is left of it will be skipped.
fn take_long_line(state: State, input: &[u8], out: &mut [u8]) -> Progress
    requires { (line_limit < length input.now) × (line_end input.now ≡ 0) × (line_room ≤ length out.old) }
    ensures { FedLines state false input.now out.old out.new result }
{
    let issound = replay_session::session_sound(state.session);
    let turn = take_line(state, issound, input, out, 0);
    Progress {
        stream: Stream {
            state: turn.state,
            inside: true,
        },
        used: input.len(),
        wrote: turn.wrote,
    }
}

// What a part holds before the end of the input.
fn feed_lines(state: State, inside: bool, input: &[u8], out: &mut [u8]) -> Progress
    ensures { FedLines state inside input.now out.old out.new result }
{
    if inside {
        return skip_line(state, input, out);
    }
    if LINE_LIMIT < input.len() && LINE_ROOM <= out.len() && replay_lines::line_end(input) == 0 {
        return take_long_line(state, input, out);
    }
    take_lines(state, input, out)
}

// The last part: lines, and the end of the input once none is left.
fn feed_last(state: State, inside: bool, input: &[u8], out: &mut [u8]) -> Progress
    ensures { FedFrom state inside true input.now out.new result }
{
    if END_ROOM <= out.len() && replay_lines::line_end(input) == 0 {
        return take_end(state, inside, input, out);
    }
    feed_lines(state, inside, input, out)
}

// Takes what it can of a part of the input, and writes what that prints. `last` says that the input ends behind the part.
pub fn feed(start: Stream, input: &[u8], last: bool, out: &mut [u8]) -> Progress
    ensures { FedFrom start.state start.inside last input.now out.new result }
{
    if last {
        return feed_last(start.state, start.inside, input, out);
    }
    feed_lines(start.state, start.inside, input, out)
}
