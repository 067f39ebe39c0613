// A constant: parsed as an i64, and turned into its stored u32.
ghost use Rattle.std.specs.Prelude.{◌≡◌};
ghost use Rattle.litmus_model.specs.Answers.{InRange};
ghost use Rattle.litmus_model.specs.Forms.{constant_of, stored};
ghost use Rattle.litmus_model.specs.Reader.{in_range};
ghost use Rattle.litmus_said.specs.Values.{capped_z};

use crate::value::value_of;

// Perhaps a minus sign, then digits.
pub fn constant_of(t: &[u8]) -> i64
    ensures { result ≡ capped_z (constant_of t.now) }
{
    match t {
        [b'-', digits @ ..] => 0 - value_of(digits) as i64,
        _ => value_of(t) as i64,
    }
}

const LEAST: i64 = -2147483648;

const MOST: i64 = 4294967295;

pub fn in_range(v: i64) -> bool
    ensures { result ≡ in_range v }
{
    (LEAST <= v) & (v <= MOST)
}

// A negative one is stored as its value plus 2^32.
pub fn store(v: i64) -> u32
    requires { InRange v }
    ensures { result ≡ stored v }
{
    if v >= 0 {
        v as u32
    } else {
        (v + 4294967296) as u32
    }
}
