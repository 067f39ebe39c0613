// The two files that a program is run on: table.rec is dealt with before trace.rec is looked at.
ghost use Rattle.std.specs.Prelude.{◌≡◌, length, IfOk};
ghost use Rattle.io.specs.Counts.{IsPrefixLen};

use crate::read::{ROOM, Unread, read_file};
use crate::say::say_line;
use std::rt::Files;

// Their lengths.
#[derive(Clone, Copy)]
pub struct Both {
    pub table: usize,
    pub trace: usize,
}

pub fn read_both<R: Files>(rt: &R, table: &mut [u8], trace: &mut [u8]) -> Result<Both, Unread>
    requires table_len { length table.old ≡ ROOM }
    requires trace_len { length trace.old ≡ ROOM }
    ensures prefix_len { IfOk result (λ both. IsPrefixLen both.table table.new) }
    ensures prefix_len_2 { IfOk result (λ both. IsPrefixLen both.trace trace.new) }
{
    Ok(Both {
        table: read_file(rt, b"table.rec", table)?,
        trace: read_file(rt, b"trace.rec", trace)?,
    })
}

// Hands both on, or says what is wrong with one of them.
pub fn on_both<R: Files + Print, F: FnOnce(&[u8], &[u8])>(rt: &R, then: F)
    requires { F.IsAlwaysCallable then }
{
    let mut table = [0u8; ROOM];
    let mut trace = [0u8; ROOM];
    match read_both(rt, &mut table, &mut trace) {
        Ok(both) => then(&table[..both.table], &trace[..both.trace]),
        Err(unread) => say_line(rt, unread),
    }
}
