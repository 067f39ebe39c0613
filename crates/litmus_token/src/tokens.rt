// Where tokens begin and end, and what they are made of.
ghost use Rattle.std.specs.Prelude.{◌≡◌, suc, ◌+◌, ◌≤◌, ◌<◌, length, drop, get_or, unwrap_or, IfSome};
ghost use Rattle.litmus_model.specs.Bytes.{is_number, is_constant, is_dollar, is_name};
ghost use Rattle.std.specs.List.{list_all, prefix_len};
ghost use Rattle.litmus_token.specs.Classes.{class_of};
ghost use Rattle.litmus_model.specs.Splitting.{run, number_length, signed_length, behind};

use crate::words::same_bytes;

// Classes of bytes: letters and digits, what a name is made of, blanks, digits.
#[derive(Clone, Copy)]
pub enum Class {
    Word,
    Name,
    Blank,
    Digit,
}

impl Class {
    #[tactic(auto, unfolding(litmus_model::specs::Bytes::in_word, litmus_model::specs::Bytes::in_name))]
    fn has(self, b: u8) -> bool
        ensures { result ≡ class_of self b }
    {
        let blank = (b == b' ') | (b == b'\n') | (b == b'\r');
        match self {
            Class::Word => b.is_ascii_alphanumeric(),
            Class::Name => !blank & (b != b'{'),
            Class::Blank => blank,
            Class::Digit => b.is_ascii_digit(),
        }
    }

    // How many bytes of the class stand first.
    fn run(self, bytes: &[u8]) -> usize
        ensures { result ≡ prefix_len (class_of self) bytes.now }
    {
        bytes.iter().take_while(|b| self.has(**b)).count()
    }

    fn has_all(self, bytes: &[u8]) -> bool
        ensures { result ≡ list_all (class_of self) bytes.now }
    {
        bytes.iter().all(|b| self.has(*b))
    }
}

// Where the run of bytes of a class that begins at `at` ends.
pub fn run_end(class: Class, text: &[u8], at: usize) -> usize
    requires { at ≤ length text.now }
    ensures { (result ≡ at + run (class_of class) (drop at text.now)) × (result ≤ length text.now) × (at ≤ result) }
{
    at + class.run(&text[at..])
}

// A whole run of digits.
pub fn is_number(t: &[u8]) -> bool
    ensures { result ≡ is_number t.now }
{
    !t.is_empty() && Class::Digit.has_all(t)
}

// With perhaps a minus sign before it.
pub fn is_constant(t: &[u8]) -> bool
    ensures { result ≡ is_constant t.now }
{
    match t {
        [b'-', digits @ ..] => is_number(digits),
        _ => is_number(t),
    }
}

// And a $ before that.
pub fn is_dollar(t: &[u8]) -> bool
    ensures { result ≡ is_dollar t.now }
{
    match t {
        [b'$', constant @ ..] => is_constant(constant),
        _ => false,
    }
}

// Where the number that begins at `at` ends, as a whole run of letters and digits, if there is one.
fn number_end(text: &[u8], at: usize) -> Option<usize>
    requires { at ≤ length text.now }
    ensures { (unwrap_or result at ≡ at + number_length (drop at text.now)) × IfSome result (λ end. (end ≤ length text.now) × (at < end)) }
{
    let end = run_end(Class::Word, text, at);
    if is_number(&text[at..end]) {
        Some(end)
    } else {
        None
    }
}

// The same with perhaps a minus sign.
fn signed_end(text: &[u8], at: usize) -> Option<usize>
    requires { at ≤ length text.now }
    ensures { (unwrap_or result at ≡ at + signed_length (drop at text.now)) × IfSome result (λ end. (end ≤ length text.now) × (at < end)) }
{
    if text[at..].starts_with(b"-") {
        return number_end(text, at + 1);
    }
    number_end(text, at)
}

// Where the token that begins at `at` ends.
pub fn token_end(text: &[u8], at: usize) -> usize
    requires { at < length text.now }
    ensures { (result ≡ suc at + behind (get_or text.now at 0) (drop (suc at) text.now)) × (result ≤ length text.now) × (at < result) }
{
    let next = at + 1;
    match text[at] {
        b if Class::Word.has(b) => run_end(Class::Word, text, next),
        b'$' => signed_end(text, next).unwrap_or(next),
        b'-' => number_end(text, next).unwrap_or(next),
        b'~' => {
            let end = run_end(Class::Word, text, next);
            if same_bytes(b"exists", &text[next..end]) {
                end
            } else {
                next
            }
        }
        _ => next,
    }
}

// A name.
pub fn is_name(t: &[u8]) -> bool
    ensures { result ≡ is_name t.now }
{
    !t.is_empty() && Class::Name.has_all(t)
}
