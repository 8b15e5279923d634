// Tests joined.
ghost use Rattle.std.specs.Prelude.{◌≡◌};
ghost use Rattle.laws.specs.Choice.{implies};

pub fn implies(test: bool, fact: bool) -> bool
    ensures { result ≡ implies test fact }
{
    !test | fact
}
