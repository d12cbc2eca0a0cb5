// One of two values, by a test.
ghost use Rattle.std.specs.Prelude.{◌≡◌};
ghost use Rattle.definition.specs.Status.{pick};

// The first value if the test holds, else the second.
pub fn pick<T: Copy>(test: bool, yes: T, no: T) -> T
    ensures { result ≡ pick test yes no }
{
    if test { yes } else { no }
}
