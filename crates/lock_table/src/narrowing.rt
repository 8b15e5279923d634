// A number of any source as a table's.
ghost use Rattle.std.specs.Prelude.{◌≡◌};
ghost use Rattle.lock_table.specs.Narrow.{narrow_of};

// 255 stands for all larger numbers: no table has a thread or an object of that number, and it is no operation.
#[tactic(auto, unfolding(crate::specs::Narrow::narrow_of))]
pub fn narrow(number: u32) -> u8
    ensures { result ≡ narrow_of number }
{
    u8::try_from(number).unwrap_or(u8::MAX)
}
