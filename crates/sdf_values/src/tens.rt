//! Powers of ten.
ghost use Rattle.std.specs.Prelude.{◌≡◌, ◌≤◌, ◌<◌, ◌^◌, ◌*◌, ℤ, pos, ◌*ℤ◌, unsigned_abs};

/// A power of ten of at most 35 digits.
#[tactic(auto, using(crate::proofs::Powers::ten_le, crate::proofs::Powers::ten_some))]
pub fn ten_to(exponent: u32) -> u128
    requires { exponent ≤ 34 }
    ensures value { result ≡ 10 ^ exponent }
    ensures some { 0 < result }
{
    10u128.pow(exponent)
}

/// A signed number so many times.
pub fn times(n: i128, unit: u128) -> i128
    requires small { unsigned_abs n * unit < 2 ^ 127 }
    requires unit { unit < 2 ^ 127 }
    ensures product { result ≡ n *ℤ pos unit }
    ensures size { unsigned_abs result ≡ unsigned_abs n * unit }
{
    n * unit as i128
}
