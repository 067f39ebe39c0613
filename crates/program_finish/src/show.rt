// The finish program: reads both files, finishes the run, writes it and says which steps were added.
ghost use Rattle.std.specs.Prelude.{◌≡◌, ◌≤◌, length};
ghost use Rattle.io.specs.Counts.{IsPrefixLen};
ghost use Rattle.model.specs.Calls.{completed};
ghost use Rattle.model.specs.Reply.{reply_of};
ghost use Rattle.text_steps.specs.Steps.{shown, InRoom};
ghost use Rattle.text.specs.Text.{Adds};

use model::answer::Answer;
use model::record::Record;
use program_files::both::on_both;
use program_files::say::{say, say_line};
use program_files::write::write_file;
use std::rt::Files;
use text_steps::added::{MOST as ADDED, ROOM as ADDED_ROOM, put_added};

// An answer, and the length of its text.
#[derive(Drop)]
pub struct Shown {
    pub answer: Answer,
    pub length: usize,
}

// Finishes the run, and puts the text of the reply at the start of out.
#[tactic(auto, using(crate::proofs::Fits::in_room))]
pub fn put_finishing(out: &mut [u8], table: &[u8], trace: &[u8], room: &mut [u8]) -> Shown
    requires do_in_bounds { ADDED ≤ length out.old }
    requires room_bound { length room.old ≤ ADDED_ROOM }
    ensures room_after { reply_of result.answer room.new ≡ completed table.now trace.now room.old }
    ensures adds { Adds out.old 0 (shown (completed table.now trace.now room.old)) out.new result.length }
    ensures prefix_len { IsPrefixLen result.length out.new }
    ensures in_room { InRoom result.answer (length room.new) }
{
    let answer = checker::finish::finish(table, trace, room);
    let length = put_added(out, answer, room);
    Shown { answer, length }
}

// Writes the whole trace, and says which steps were added.
fn keep<R: Files + Print>(rt: &R, trace: &[u8], added: &[u8], text: &[u8]) {
    match write_file(rt, b"finished.rec", b"finished.rec.new", trace, added) {
        Ok(()) => say(rt, text),
        Err(_) => say_line(rt, "cannot write finished.rec"),
    }
}

fn show_reply<R: Files + Print>(rt: &R, table: &[u8], trace: &[u8]) {
    let mut room = [0u8; ADDED_ROOM];
    let mut text = [0u8; ADDED];
    let Shown { answer, length } = put_finishing(&mut text, table, trace, &mut room);
    let text = &text[..length];
    match answer {
        Ok(k) => keep(rt, trace, &room[..k * Record::BYTES], text),
        Err(_) => say(rt, text),
    }
}

pub fn show<R: Files + Print>(rt: &R) {
    on_both(rt, |table, trace| show_reply(rt, table, trace));
}
