// The listing program: reads both files, checks, and says the reply.
ghost use Rattle.std.specs.Prelude.{◌≤◌, length, replicate};
ghost use Rattle.io.specs.Counts.{IsPrefixLen};
ghost use Rattle.model.specs.Calls.{checked};
ghost use Rattle.text.specs.Reply.{listed};
ghost use Rattle.text.specs.Text.{Adds};

use model::table::Cells;
use program_files::both::on_both;
use program_files::say::say;
use std::rt::Files;
use text::reply::{MOST as REPLY, put_reply};

// Checks, and puts the listing at the start of out. Answers its length.
pub fn put_listing(out: &mut [u8], table: &[u8], trace: &[u8]) -> usize
    requires { REPLY ≤ length out.old }
    ensures prefix_len { IsPrefixLen result out.new }
    ensures fact { Adds out.old 0 (listed (checked table.now trace.now (replicate Cells.RESULT 0))) out.new result }
{
    let mut room = [0u32; Cells::RESULT];
    let answer = checker::check::check(table, trace, &mut room);
    put_reply(out, answer, &room)
}

fn show_reply(rt: &impl Print, table: &[u8], trace: &[u8]) {
    let mut text = [0u8; REPLY];
    let n = put_listing(&mut text, table, trace);
    say(rt, &text[..n]);
}

pub fn show<R: Files + Print>(rt: &R) {
    on_both(rt, |table, trace| show_reply(rt, table, trace));
}
