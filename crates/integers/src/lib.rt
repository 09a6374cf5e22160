// The absolute value that the crates above share.
#![tactic(auto)]

ghost use Rattle.std.specs.Prelude.{◌≡◌, ◌^◌, nat_abs};
ghost use Rattle.integers.specs.Range.{Abs≤};

// |x|, of a number that has a negative in 64 bits.
pub fn magnitude(x: i64) -> u64
    requires { Abs≤ (2 ^ 62) x }
    ensures { result ≡ nat_abs x }
{
    x.unsigned_abs()
}
