// Tokens that stand for themselves, registers, locations.
ghost use Rattle.std.specs.Prelude.{◌≡◌};
ghost use Rattle.litmus_model.specs.Bytes.{same, is_register, is_location};

// The two are the same bytes.
pub fn same_bytes(word: &[u8], t: &[u8]) -> bool
    ensures { result ≡ same word.now t.now }
{
    word == t
}

#[tactic(auto, unfolding(litmus_model::specs::Bytes::is_register))]
pub fn is_register(t: &[u8]) -> bool
    ensures { result ≡ is_register t.now }
{
    same_bytes(b"EAX", t) | same_bytes(b"EBX", t) | same_bytes(b"ECX", t) | same_bytes(b"EDX", t)
}

pub fn is_location(t: &[u8]) -> bool
    ensures { result ≡ is_location t.now }
{
    match t {
        [b] => b.is_ascii_lowercase(),
        _ => false,
    }
}
