// The bytes that lines are made of, for the line reader too, and the storing of one. specs/Bytes.antt states them as numbers for the contracts.
ghost use Rattle.std.specs.Prelude.{[], ◌∷◌, ◌<◌, length};
ghost use Rattle.replay_text.specs.Written.{Wrote};

pub const NEWLINE: u8 = b'\n';

pub const SPACE: u8 = b' ';

pub const DIGIT_ZERO: u8 = b'0';

pub const LOWER_A: u8 = b'a';

pub(crate) fn put_byte(out: &mut [u8], at: usize, byte: u8) -> usize
    requires { at < length out.old }
    ensures { Wrote out.old out.new at result (byte ∷ []) }
{
    out[at] = byte;
    at + 1
}
