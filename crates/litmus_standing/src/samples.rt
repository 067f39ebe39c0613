// Samples of the tokens of a litmus text, one of each kind that its grammar tells apart, and what each is called.
ghost use Rattle.std.specs.Prelude.{◌≤◌, ◌<◌, length};

// No sample is longer.
pub const SAMPLE: usize = 8;

// Nor what one is called.
pub const WORDS: usize = 40;

pub const ROWS: usize = 27;

// A sample, and its words. The sample of a name is first, and can be nothing else; that of a processor is two tokens, since a number alone could be a constant.
const TABLE: [(&str, &str); ROWS] = [
    ("?", "a name"),
    ("X86", "X86"),
    ("{", "{"),
    ("}", "}"),
    ("x", "a location (a to z)"),
    ("0:", "a processor (0 to 3)"),
    (":", ":"),
    ("=", "="),
    ("-1", "a constant"),
    ("P0", "P0"),
    ("P1", "P1"),
    ("P2", "P2"),
    ("P3", "P3"),
    ("P4", "P4 (one too many)"),
    ("exists", "an end word (exists, ~exists, forall)"),
    ("MOV", "MOV"),
    ("MFENCE", "MFENCE"),
    ("XCHG", "XCHG"),
    ("XADD", "XADD"),
    ("LOCK", "LOCK"),
    ("[", "["),
    ("]", "]"),
    (",", ","),
    ("EAX", "a register (EAX to EDX)"),
    ("$1", "a constant behind $"),
    ("|", "|"),
    (";", ";"),
];

pub fn row_at(k: usize) -> (&'static str, &'static str)
    requires { k < ROWS }
    ensures sample { length result.0.now ≤ SAMPLE }
    ensures words { length result.1.now ≤ WORDS }
{
    TABLE[k]
}
