// Whether the lock blocks a processor, and what a write issues.
ghost use Rattle.std.specs.Prelude.{◌≡◌};
ghost use Rattle.machine_rules.specs.Guards.{blocked_in};
ghost use Rattle.model.specs.Code.{acts_of};

use model::kind::Role;

// Another processor than p holds the lock.
pub fn blocked(holder: Option<usize>, p: usize) -> bool
    ensures { result ≡ blocked_in holder p }
{
    holder.is_some_and(|q| q != p)
}

// What the write of an instruction of this kind (a byte of its record) issues, with `register` in its register and `kept` aside.
pub fn issued_by(kind: u8, constant: u32, kept: u32, register: u32) -> u32
    ensures { result ≡ (acts_of kind).issues constant kept register }
{
    match Role::from(kind) {
        Role::StoreConstant => constant,
        Role::ExchangeAdd => kept.wrapping_add(register),
        _ => register,
    }
}
