// What may stand at a place of a form.
ghost use Rattle.std.specs.Prelude.{[], ◌∷◌, ◌≡◌};
ghost use Rattle.litmus_model.specs.Bytes.{same};
ghost use Rattle.litmus_model.specs.Forms.{fits};
ghost use Rattle.litmus_form.specs.Patterns.{pattern_of, numbered};

use litmus_token::tokens::{is_constant, is_dollar, is_number};
use litmus_token::words::{is_location, is_register, same_bytes};

#[derive(Clone, Copy)]
pub enum Pattern {
    Mov,
    Mfence,
    Xchg,
    Xadd,
    Lock,
    Location,
    Register,
    Processor,
    Constant,
    Dollar,
    // A mark, by its byte.
    Mark(u8),
    // The mark that closes a row's cell, before it is known which.
    Closing,
    // Behind a form's last token.
    Past,
}

// By its number: from 32 on a mark is its byte. Stays for all numbers: `advance` promises what it promises of any mark. 0, and 11 to 31, are past a form's end.
impl From<u8> for Pattern {
    ghost from_gives = { λ n pattern. pattern ≡ numbered n };

    fn from(n: u8) -> Pattern {
        match n {
            32.. => Pattern::Mark(n),
            1 => Pattern::Mov,
            2 => Pattern::Mfence,
            3 => Pattern::Xchg,
            4 => Pattern::Xadd,
            5 => Pattern::Lock,
            6 => Pattern::Location,
            7 => Pattern::Register,
            8 => Pattern::Processor,
            9 => Pattern::Constant,
            10 => Pattern::Dollar,
            _ => Pattern::Past,
        }
    }
}

// The mark b, and nothing else.
pub fn is_mark(b: u8, t: &[u8]) -> bool
    ensures { result ≡ same (b ∷ []) t.now }
{
    same_bytes(&[b], t)
}

impl Pattern {
    // The token may stand there. Most patterns are marks, and those are told by a branch of their own: in one jump with the others reading takes a quarter longer.
    #[tactic(auto, using(crate::proofs::Codes::none_same), unfolding(crate::specs::Patterns::pattern_of, litmus_model::specs::Forms::fits))]
    pub fn fits(self, t: &[u8]) -> bool
        ensures { result ≡ fits (pattern_of self) t.now }
    {
        if let Pattern::Mark(b) = self {
            return is_mark(b, t);
        }
        self.fits_word(t)
    }

    #[tactic(auto, using(crate::proofs::Codes::none_same), unfolding(crate::specs::Patterns::pattern_of, litmus_model::specs::Forms::fits))]
    #[inline(never)]
    fn fits_word(self, t: &[u8]) -> bool
        ensures { result ≡ fits (pattern_of self) t.now }
    {
        match self {
            Pattern::Mov => same_bytes(b"MOV", t),
            Pattern::Mfence => same_bytes(b"MFENCE", t),
            Pattern::Xchg => same_bytes(b"XCHG", t),
            Pattern::Xadd => same_bytes(b"XADD", t),
            Pattern::Lock => same_bytes(b"LOCK", t),
            Pattern::Location => is_location(t),
            Pattern::Register => is_register(t),
            Pattern::Processor => is_number(t),
            Pattern::Constant => is_constant(t),
            Pattern::Dollar => is_dollar(t),
            Pattern::Mark(b) => is_mark(b, t),
            Pattern::Closing | Pattern::Past => t.is_empty(),
        }
    }
}
