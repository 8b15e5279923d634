// What is left of a buffer after its whole lines were taken is kept at its front.
ghost use Rattle.std.specs.Prelude.{◌≡◌};
ghost use Rattle.replay_parts.specs.Keeping.{keep_rest};

// Moves the bytes from `from` up to `to` to the front. Where there are no such bytes nothing is moved.
#[tactic(auto, unfolding(crate::specs::Keeping::keep_rest))]
pub fn keep_rest(buffer: &mut [u8], from: usize, to: usize)
    ensures { buffer.new ≡ keep_rest from to buffer.old }
{
    if from <= to && to <= buffer.len() {
        buffer.copy_within(from..to, 0);
    }
}
