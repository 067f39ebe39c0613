// A run of digits as a number. Above 2^32 it counts as 2^32, which is out of any range too, so that any number of digits is read without overflow.
ghost use Rattle.std.specs.Prelude.{◌≡◌, ◌≤◌};
ghost use Rattle.litmus_model.specs.Bytes.{value_of};
ghost use Rattle.litmus_said.specs.Values.{capped};

const CAP: u64 = 4294967296;

// What the digits say.
pub fn value_of(digits: &[u8]) -> u64
    ensures { (result ≡ capped (value_of digits.now)) × (result ≤ 4294967296) }
{
    let mut v: u64 = 0;
    for b in digits {
        v = CAP.min(v * 10 + u64::from(b.saturating_sub(b'0')));
    }
    v
}
