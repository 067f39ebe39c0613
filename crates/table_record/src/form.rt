// The tests of a record by itself.
ghost use Rattle.std.specs.Prelude.{◌≡◌};
ghost use Rattle.model.specs.Fields.{Known};
ghost use Rattle.model.specs.Kinds.{table_uses};
ghost use Rattle.record.specs.Fields.{row_of};
ghost use Rattle.model.specs.Code.{Gives};
ghost use Rattle.model.specs.Reading.{own_tests};

use model::answer::{Refusal, Verdict};
use model::kind::Role;
use model::record::Record;
use record::fields;

// Stays beside the one of crate trace: this gives 3 and 4, that one 10 for both.
// Tests 3, 4 of record i, whose kind uses these of processor, register, location, value. Its kind is known.
fn tested(used: [bool; Record::FIELDS], i: usize, r: Record) -> Verdict
    requires { Known table_uses r × (used ≡ row_of table_uses r.kind) }
    ensures { Gives result (own_tests r) i }
{
    if fields::too_large(used, r) {
        return Err(Refusal::TableRange.at(i));
    }
    if fields::not_zero(used, r) {
        return Err(Refusal::TableUnused.at(i));
    }
    Ok(())
}

// Tests 2, 3, 4 of record i. Each row is tested by itself: with its constants in place few instructions are left.
pub fn malformed(i: usize, r: Record) -> Verdict
    ensures { Gives result (own_tests r) i }
{
    match Role::from(r.kind) {
        Role::Unknown => Err(Refusal::TableKind.at(i)),
        Role::InitialMemory => tested([false, false, true, true], i, r),
        Role::InitialRegister | Role::SetRegister => tested([true, true, false, true], i, r),
        Role::StoreConstant => tested([true, false, true, true], i, r),
        Role::Fence => tested([true, false, false, false], i, r),
        Role::StoreRegister | Role::Load | Role::Exchange | Role::ExchangeAdd => {
            tested([true, true, true, false], i, r)
        }
    }
}
