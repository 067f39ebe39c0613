// The text of a fault.
ghost use Rattle.std.specs.Prelude.{◌≤◌, length};
ghost use Rattle.text_fault.specs.Faults.{Shows};

use crate::line::{WIDTH, part_around};
use crate::position::position_at;
use crate::shown::{FIRST, LINES, put_first, put_shown};

// No text of one is longer.
pub const MOST: usize = FIRST + LINES;

// At the start of out: number, place, line and column, and the line with a mark under the place.
pub fn put_fault(out: &mut [u8], number: u64, text: &[u8], place: usize) -> usize
    requires in_bounds { MOST ≤ length out.old }
    requires place_in_bounds { place ≤ length text.now }
    ensures shows { Shows WIDTH number text.now place out.old out.new result }
    ensures upper_bound { result ≤ MOST }
{
    let p = position_at(text, place);
    let part = part_around(text, place - (p.column - 1), place);
    let at = put_first(out, number, place, p);
    put_shown(out, at, &text[part.start..part.end], place - part.start)
}
