// The lookup.
ghost use Rattle.std.specs.Prelude.{◌≡◌};
ghost use Rattle.model.specs.Code.{place_at};
ghost use Rattle.machine_rules.specs.Lookups.{Finds, FindsIn, value_at, Reaches};
ghost use Rattle.machine_rules.specs.Offers.{Part};

use model::origin::Origin;
use model::table::Program;

// Where a read of x gets its value, if writes to these locations wait: the newest of them to x or, with none, memory.
// Stays a loop: document 01's named form for this place is a loop from the newest that yields the position, or none, by break.
fn newest(locations: &[u8], x: u8) -> Origin
    ensures { Finds locations.now x result }
{
    let mut i = locations.len();
    loop {
        if i == 0 {
            break Origin::Memory;
        }
        i -= 1;
        if locations[i] == x {
            break Origin::Waiting(i);
        }
    }
}

// Where processor p's read of x gets its value. Issued, drained and p stay arguments: this crate knows no machine.
pub fn origin(
    locations: &[u8; Program::PLACES],
    issued: usize,
    drained: usize,
    p: usize,
    x: u8,
) -> Origin
    requires { Part issued drained p }
    ensures { FindsIn locations.now issued drained p x result }
{
    let from = Program::INSTRUCTIONS * p + drained;
    let to = Program::INSTRUCTIONS * p + issued;
    let xs = &locations[..];
    newest(&xs[from..to], x)
}

// The value there, where the location holds `memory`.
pub fn value(
    values: &[u32; Program::PLACES],
    drained: usize,
    p: usize,
    from: Origin,
    memory: u32,
) -> u32
    requires { Reaches from (place_at p drained) }
    ensures { result ≡ value_at values.now (place_at p drained) from memory }
{
    match from {
        Origin::Memory => memory,
        Origin::Waiting(position) => {
            let oldest = Program::INSTRUCTIONS * p + drained;
            values[oldest + position]
        }
    }
}
