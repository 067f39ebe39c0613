// The kinds of table records.
ghost use Rattle.std.specs.Prelude.{◌≡◌};
ghost use Rattle.model.specs.Code.{role_of};

// What a record is, by its kind: said once, and asked wherever kinds differ. Whether an exchange locks is in its program steps.
#[derive(Clone, Copy)]
pub enum Role {
    Unknown,
    InitialMemory,
    InitialRegister,
    StoreConstant,
    StoreRegister,
    Load,
    SetRegister,
    Fence,
    Exchange,
    ExchangeAdd,
}

impl Role {
    // Every kind is below.
    pub const KINDS: usize = 12;

    // No instruction has more program steps.
    pub const PHASES: usize = 4;
}

// By the number of a kind. Total, since what is no kind has a role too (`role_of`): that of the record that stands past a program's end.
impl From<u8> for Role {
    ghost from_gives = { λ kind role. role ≡ role_of kind };

    #[tactic(auto, unfolding(crate::specs::Code::role_of))]
    fn from(kind: u8) -> Role {
        match kind {
            1 => Role::InitialMemory,
            2 => Role::InitialRegister,
            3 => Role::StoreConstant,
            4 => Role::StoreRegister,
            5 => Role::Load,
            6 => Role::SetRegister,
            7 => Role::Fence,
            8 => Role::Exchange,
            9 => Role::Exchange,
            10 => Role::ExchangeAdd,
            11 => Role::ExchangeAdd,
            _ => Role::Unknown,
        }
    }
}
