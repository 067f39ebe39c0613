// The tests of a record's fields. `used` is its kind's row: does the kind use processor, register, location, value?
// Stays an array: a row is one line where its kind is tested, as in document 01's table; with a struct's names it takes six.
ghost use Rattle.std.specs.Prelude.{◌≡◌};
ghost use Rattle.record.specs.Fields.{too_large_by, not_zero_by};

use model::record::Record;
use model::table::{Cells, Program};

// A processor, register or location is used and too large.
pub fn too_large(used: [bool; Record::FIELDS], r: Record) -> bool
    ensures { result ≡ too_large_by Program.PROCESSORS Cells.REGISTERS Cells.LOCATIONS used r }
{
    let [processor, register, location, _] = used;
    (processor & (Program::PROCESSORS <= usize::from(r.processor)))
        | (register & (Cells::REGISTERS <= usize::from(r.register)))
        | (location & (Cells::LOCATIONS <= usize::from(r.location)))
}

// A field is unused and not zero.
pub fn not_zero(used: [bool; Record::FIELDS], r: Record) -> bool
    ensures { result ≡ not_zero_by used r }
{
    let [processor, register, location, value] = used;
    (!processor & (r.processor != 0))
        | (!register & (r.register != 0))
        | (!location & (r.location != 0))
        | (!value & (r.value != 0))
}
