ghost use Rattle.std.specs.Prelude.{◌≡◌, IfErr, IfOk, OnOk};
ghost use Rattle.trick_check.specs.Refused.{IsRefused, NamesAreRight};
ghost use Rattle.trick_check.specs.Refused.{check_fault};
ghost use Rattle.trick_lang.specs.SDefineOf.{sdefine_of};
ghost use Rattle.trick_check_names.specs.Tables.{tables_of};

use crate::CheckFault;
use std::alloc::Global as Memory;
use trick_check_names::{NameFault, Tables, check};
use trick_lang::syntax::SDefine;

// The refusal of a mistake in names.
fn check_fault(fault: NameFault) -> CheckFault
    ensures { result ≡ check_fault fault }
{
    match fault {
        NameFault::Twice(name) => CheckFault::Twice { name },
        NameFault::Unknown(line) => CheckFault::Unknown { line },
        NameFault::NotScalar(line) => CheckFault::NotScalar { line },
        NameFault::OutOfMemory => CheckFault::OutOfMemory,
    }
}

/// What a file declares, where all its names are right.
pub fn check_names(alloc: Memory, sdef: &SDefine) -> Result<Tables, CheckFault>
    ensures tables { IfOk result (λ tables. tables ≡ tables_of (sdefine_of sdef.now)) }
    ensures right { OnOk result (NamesAreRight (sdefine_of sdef.now)) }
    ensures refused { IfErr result (λ fault. IsRefused (sdefine_of sdef.now) fault) }
{
    match check(alloc, sdef) {
        Ok(tables) => Ok(tables),
        Err(fault) => Err(check_fault(fault)),
    }
}
