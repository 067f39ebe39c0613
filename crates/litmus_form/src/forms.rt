// The forms of cells, and which of them are alive token by token: those that can still be meant.
ghost use Rattle.std.specs.Prelude.{◌≡◌, ◌&&◌, ◌<◌};
ghost use Rattle.litmus_model.specs.Forms.{fits};
ghost use Rattle.litmus_form.specs.Patterns.{pattern_of};
ghost use Rattle.litmus_form.specs.Flags.{form_at, code_at, Advanced, First};

use crate::patterns::Pattern;

pub const COUNT: usize = 12;

// The most patterns of a form.
pub const LONGEST: usize = 8;

#[derive(Clone, Copy)]
pub struct Form {
    // Of the record that it gives. Stays 0 for an empty cell, which gives none: so the definitions have it (`Form`).
    pub kind: u8,
    // How many tokens it has.
    pub length: usize,
}

macro_rules! pattern {
    ($mark:literal) => {
        Pattern::Mark($mark)
    };
    ($pattern:ident) => {
        Pattern::$pattern
    };
}

macro_rules! forms {
    ($($kind:literal $length:literal [$($pattern:tt)*])*) => {
        [$(Form { kind: $kind, length: $length }),*]
    };
}

macro_rules! patterns {
    ($($kind:literal $length:literal [$($pattern:tt)*])*) => {
        [$([$(pattern!($pattern)),*]),*]
    };
}

// Two forms of initial cells, ten of a row's cell: the kind, the length, and the patterns, filled up behind the end.
macro_rules! rows {
    ($table:ident) => {
        $table! {
            1 4 [Location b'=' Constant b';' Past Past Past Past]
            2 6 [Processor b':' Register b'=' Constant b';' Past Past]
            0 1 [Closing Past Past Past Past Past Past Past]
            3 7 [Mov b'[' Location b']' b',' Dollar Closing Past]
            4 7 [Mov b'[' Location b']' b',' Register Closing Past]
            5 7 [Mov Register b',' b'[' Location b']' Closing Past]
            6 5 [Mov Register b',' Dollar Closing Past Past Past]
            7 2 [Mfence Closing Past Past Past Past Past Past]
            8 7 [Xchg b'[' Location b']' b',' Register Closing Past]
            9 8 [Lock Xchg b'[' Location b']' b',' Register Closing]
            10 7 [Xadd b'[' Location b']' b',' Register Closing Past]
            11 8 [Lock Xadd b'[' Location b']' b',' Register Closing]
        }
    };
}

static FORMS: [Form; COUNT] = rows!(forms);

// Stays a table beside FORMS: a table of structs that hold arrays is built anew at each read, and reading takes four times as long.
static PATTERNS: [[Pattern; LONGEST]; COUNT] = rows!(patterns);

// Form j.
pub fn form_at(j: usize) -> Form
    requires { j < 12 }
    ensures { result ≡ form_at j }
{
    FORMS[j]
}

// Pattern `at` of form j, where `mark` closes a row's cell.
pub fn pattern_at(mark: u8, j: usize, at: usize) -> Pattern
    requires { (j < 12) × (at < 8) }
    ensures { result ≡ code_at mark j at }
{
    match PATTERNS[j][at] {
        Pattern::Closing => Pattern::from(mark),
        pattern => pattern,
    }
}

// Whether form j is still alive behind the token, which is its token `at`.
fn stays(alive: bool, mark: u8, j: usize, at: usize, t: &[u8]) -> bool
    requires { (j < 12) × (at < 8) }
    ensures { result ≡ alive && fits (pattern_of (code_at mark j at)) t.now }
{
    alive && pattern_at(mark, j, at).fits(t)
}

// The forms that are still alive behind the token, which is their token `at`.
pub fn advance(alive: [bool; COUNT], mark: u8, at: usize, t: &[u8]) -> [bool; COUNT]
    requires { at < 8 }
    ensures { Advanced alive mark at t.now result }
{
    let mut next = [false; COUNT];
    // By number: the table of patterns is asked for form j.
    for j in 0..COUNT {
        next[j] = stays(alive[j], mark, j, at, t);
    }
    next
}

// The first form that is alive, if one is.
pub fn first_alive(alive: [bool; COUNT]) -> Option<usize>
    ensures { First alive result }
{
    alive.iter().position(|a| *a)
}
