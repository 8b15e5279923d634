// Where the first line of an input ends.
ghost use Rattle.std.specs.Prelude.{◌≡◌, position, eqb};
ghost use Rattle.replay_text.specs.Bytes.{newline};
ghost use Rattle.replay_lines.specs.Cutting.{line_end};

use replay_text::NEWLINE;

// No line of a form is longer.
pub const LINE_LIMIT: usize = 20;

// Where the first newline stands.
fn first_newline(input: &[u8]) -> Option<usize>
    ensures { result ≡ position (λ byte. eqb byte newline) input.now }
{
    input.iter().position(|byte| *byte == NEWLINE)
}

// How many bytes the first line takes, its newline with it; 0 if there is no newline, since `line_end` counts so and what a part promises
// (`Fed`, `HasLine`) is stated by it.
pub fn line_end(input: &[u8]) -> usize
    ensures { result ≡ line_end input.now }
{
    match first_newline(input) {
        Some(at) => at + 1,
        None => 0,
    }
}
