// What is said of a text that is refused.
ghost use Rattle.std.specs.Prelude.{◌+◌, ◌≤◌, length};
ghost use Rattle.program_read.specs.Places.{InText};

use litmus_standing::standing::{TRIED, standing_at};
use litmus_standing::words::{LIST, put_standing};
use model::answer::{Refusal, Refused};
use text::lines::put_refused;
use text::put::{LINE_END, put_byte, put_number, put_word};
use text_fault::fault;
use text_fault::fault::{MOST as FAULT, put_fault};

// No words of a refusal are longer, but for the list of what could stand.
const WORDS: usize = 64;

pub const MOST: usize = fault::MOST + WORDS + WORDS + LIST;

// What a byte is that its line does not show.
fn put_byte_there(out: &mut [u8], at: usize, b: u8) -> usize
    requires { at + WORDS ≤ length out.old }
    ensures { result ≤ at + WORDS }
{
    match b {
        b' '..=b'~' => at,
        b'\t' => put_word(out, at, b"here stands a tab, shown as ?\n"),
        _ => {
            let at = put_word(out, at, b"here stands byte ");
            let at = put_number(out, at, u64::from(b));
            put_word(out, at, b", shown as ?\n")
        }
    }
}

// What stands at a place of a text of n bytes, where its line does not show it: such a byte, or the text's end.
fn put_there(out: &mut [u8], at: usize, text: &[u8], n: usize, place: usize) -> usize
    requires at_in_bounds { at + WORDS ≤ length out.old }
    requires n_in_bounds { n ≤ length text.now }
    ensures { result ≤ at + WORDS }
{
    match text[..n].get(place) {
        Some(b) => put_byte_there(out, at, *b),
        None => put_word(out, at, b"the text ends here\n"),
    }
}

// Where it is, and the line.
fn put_place(out: &mut [u8], text: &[u8], n: usize, refused: Refused) -> usize
    requires in_bounds { MOST ≤ length out.old }
    requires n_in_bounds { n ≤ length text.now }
    requires place_le_n { refused.place ≤ n }
    ensures { result ≤ FAULT }
{
    put_fault(out, u64::from(refused.why), &text[..n], refused.place)
}

fn put_grammar(out: &mut [u8], text: &mut [u8], n: usize, refused: Refused) -> usize
    requires in_bounds { MOST ≤ length out.old }
    requires n_in_bounds { n + TRIED ≤ length text.old }
    requires place_le_n { refused.place ≤ n }
    ensures { result ≤ MOST }
{
    let at = put_place(out, text, n, refused);
    let at = put_there(out, at, text, n, refused.place);
    let at = put_word(out, at, b"here could stand: ");
    let at = put_standing(out, at, standing_at(text, refused.place));
    put_byte(out, at, LINE_END)
}

fn put_limit(out: &mut [u8], text: &[u8], n: usize, refused: Refused) -> usize
    requires in_bounds { MOST ≤ length out.old }
    requires n_in_bounds { n ≤ length text.now }
    requires place_le_n { refused.place ≤ n }
    ensures { result ≤ MOST }
{
    let at = put_place(out, text, n, refused);
    match text[..n].get(refused.place) {
        Some(b'a'..) => put_word(out, at, b"a ninth location: a text has at most eight\n"),
        _ => put_word(out, at, b"a processor above 3\n"),
    }
}

fn put_constant(out: &mut [u8], text: &[u8], n: usize, refused: Refused) -> usize
    requires in_bounds { MOST ≤ length out.old }
    requires n_in_bounds { n ≤ length text.now }
    requires place_le_n { refused.place ≤ n }
    ensures { result ≤ MOST }
{
    let at = put_place(out, text, n, refused);
    put_word(
        out,
        at,
        b"a constant out of range: -2147483648 to 4294967295\n",
    )
}

// For a record of the table that the text gives.
fn put_record(out: &mut [u8], refused: Refused, words: &[u8]) -> usize
    requires in_bounds { MOST ≤ length out.old }
    requires words_len_bound { length words.now ≤ WORDS }
    ensures { result ≤ MOST }
{
    let at = put_refused(out, refused);
    let at = put_word(out, at, b"record ");
    let at = put_number(out, at, refused.place as u64);
    put_word(out, at, words)
}

// At the start of out, what is said of a text of n bytes. Overwrites the text from the place on.
pub fn put_refusal(out: &mut [u8], text: &mut [u8], n: usize, refused: Refused) -> usize
    requires in_bounds { MOST ≤ length out.old }
    requires n_in_bounds { n + TRIED ≤ length text.old }
    requires in_text { InText refused.why refused.place n }
    ensures { result ≤ MOST }
{
    match refused.why {
        Refusal::TextGrammar => put_grammar(out, text, n, refused),
        Refusal::TextLimit => put_limit(out, text, n, refused),
        Refusal::TextConstant => put_constant(out, text, n, refused),
        Refusal::CellTwice => put_record(out, refused, b", from 0: this cell is given twice\n"),
        Refusal::Seventeenth => put_record(
            out,
            refused,
            b", from 0: the seventeenth instruction of its processor\n",
        ),
        _ => put_refused(out, refused),
    }
}
