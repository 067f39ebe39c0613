// The part of a line that is shown.
ghost use Rattle.std.specs.Prelude.{◌≡◌, ◌≤◌, length};
ghost use Rattle.text_fault.specs.Places.{up_to_end, Around};

use std::ops::Range;

// No more of a line is shown, and of a longer one no more than MARGIN before the place.
pub const WIDTH: usize = 72;

const MARGIN: usize = 36;

// How many bytes stand before the end of a line, or of the text.
fn up_to_end(rest: &[u8]) -> usize
    ensures value { result ≡ up_to_end rest.now }
    ensures upper_bound { result ≤ length rest.now }
{
    rest.iter().position(|b| *b == b'\n').unwrap_or(rest.len())
}

// Around a place on a line that begins at `start`.
pub fn part_around(text: &[u8], start: usize, place: usize) -> Range<usize>
    requires start_le_place { start ≤ place }
    requires place_in_bounds { place ≤ length text.now }
    ensures { Around WIDTH text.now start place result }
{
    let end = place + up_to_end(&text[place..]);
    if end - start <= WIDTH {
        return start..end;
    }
    let from = start.max(place.saturating_sub(MARGIN));
    from..end.min(from + WIDTH)
}
