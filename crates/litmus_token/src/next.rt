// The next token of a text.
ghost use Rattle.std.specs.Prelude.{◌≤◌, length};
ghost use Rattle.litmus_token.specs.Spans.{Spans, Named, Unnamed};

use crate::tokens::{Class, run_end, token_end};
use std::ops::Range;

// Text and place stay two arguments, here and in litmus_reader: docs/PROMISES.md promises these functions of any place of any text.
// The bytes of the token, from `at` on; at the text's end an empty range there.
pub fn next_token(text: &[u8], at: usize) -> Range<usize>
    requires { at ≤ length text.now }
    ensures { Spans Unnamed text.now at result × (at ≤ result.start) × (result.start ≤ result.end) × (result.end ≤ length text.now) }
{
    let start = run_end(Class::Blank, text, at);
    if start == text.len() {
        return start..start;
    }
    start..token_end(text, start)
}

// The same for the name; where there is none, it is the brace. Stays beside next_token: what they share is in run_end, and what ends them differs.
pub fn next_name(text: &[u8], at: usize) -> Range<usize>
    requires { at ≤ length text.now }
    ensures { Spans Named text.now at result × (at ≤ result.start) × (result.start ≤ result.end) × (result.end ≤ length text.now) }
{
    let start = run_end(Class::Blank, text, at);
    if start == text.len() {
        return start..start;
    }
    let end = run_end(Class::Name, text, start);
    if start < end {
        return start..end;
    }
    start..start + 1
}
