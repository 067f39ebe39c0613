// The records that a text gives.
ghost use Rattle.std.specs.Prelude.{◌≡◌, ◌+◌, ◌<◌, ◌≤◌};
ghost use Rattle.litmus_reader.specs.Keeping.{KeepsOn};

use model::record::Record;
use record::word::packed;

// No readable table has so many records: those behind them need not be kept to find that out.
pub const MOST: usize = 89;

// Stands where no record is kept; nothing reads it. It is not zero for the reason that Program::UNREAD is not.
const UNREAD: u64 = 1;

// How many there are, and the first of them in words. Stays a pair: records are counted on past those that are kept.
#[derive(Drop)]
pub struct Records {
    pub words: [u64; MOST],
    pub count: usize,
}

impl Records {
    pub fn new() -> Records
        ensures { result.count ≡ 0 }
    {
        Records {
            words: [UNREAD; MOST],
            count: 0,
        }
    }

    // A record is counted, and kept if there is room. An empty cell gives none.
    pub(crate) fn keep(&mut self, r: Record)
        requires { self.old.count + 1 < 18446744073709551616 }
        ensures { KeepsOn self.old r self.new × (self.new.count ≤ self.old.count + 1) }
    {
        if r.kind == 0 {
            return;
        }
        let n = self.count;
        self.count = n + 1;
        if MOST <= n {
            return;
        }
        self.words[n] = packed(r);
    }
}
