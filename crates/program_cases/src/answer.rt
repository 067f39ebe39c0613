// The answer to a case.
ghost use Rattle.std.specs.Prelude.{◌*◌, ◌≤◌, length};
ghost use Rattle.case.specs.Calls.{number_of};
ghost use Rattle.program_cases.specs.Answers.{Checks, Answers};

use ambercell::{CAnswer, ambercell_check, ambercell_finish, ambercell_litmus};
use case::call::Call;
use case::words::{read_words, write_words};
use record::bytes::WORD;

// In the words that a room's bytes are.
fn check(table: &[u8], trace: &[u8], room: &mut [u8], words: &mut [u32]) -> CAnswer
    requires { length words.old * WORD ≤ length room.old }
    ensures { Checks table.now trace.now room.old words.old result room.new words.new }
{
    read_words(words, room);
    let answer = ambercell_check(table, trace, words);
    write_words(room, words);
    answer
}

// Stays a number: its clause promises a check for each number that is no call's, too.
pub fn answer(call: u32, table: &[u8], trace: &[u8], room: &mut [u8], words: &mut [u32]) -> CAnswer
    requires { length words.old * WORD ≤ length room.old }
    ensures { Answers (number_of Call.Finish) (number_of Call.Litmus) call table.now trace.now room.old words.old result room.new words.new }
{
    match Call::try_from(call) {
        Ok(Call::Finish) => ambercell_finish(table, trace, room),
        Ok(Call::Litmus) => ambercell_litmus(table, room),
        Ok(Call::Check) | Err(_) => check(table, trace, room, words),
    }
}
