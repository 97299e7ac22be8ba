//! Values.

ghost use Rattle.std.specs.Prelude.{◌≡◌, List, ℕ, IfOk, IfErr};
ghost use Rattle.vs_rows.specs.Names.{IsValue};
ghost use Rattle.vs_rows.specs.Faults.{IsCauseOf};

use crate::fault::RowFault;
use crate::name::{LONGEST_VALUE, is_name};
use std::alloc::Global;
use std::marker::Model;
use vs_base::NoMemory;

/// The value of a row: 1 to 256 visible characters, and not the mark `;` alone.
#[derive(Drop)]
pub struct Val {
    bytes: Vec<u8>,
}

impl Model for Val {
    ghost Value = { List ℕ };

    ghost view = { λ v. v.bytes.items };

    ghost invariant = { λ v. IsValue v.bytes.items };
}

impl Val {
    pub fn new(alloc: Global, bytes: &[u8]) -> Result<Val, RowFault>
        ensures ok { IfOk result (λ v. (v ≡ bytes.now) × IsValue bytes.now) }
        ensures err { IfErr result (λ fault. IsCauseOf IsValue fault bytes.now) }
    {
        if !is_name(bytes, LONGEST_VALUE) {
            return Err(RowFault::BadText);
        }
        let bytes = Vec::from_slice(alloc, bytes)?;
        Ok(Val { bytes })
    }

    pub fn as_bytes(&self) -> &[u8]
        ensures value { result.now ≡ self.now }
        ensures name { IsValue self.now }
    {
        &self.bytes
    }

    pub fn try_clone(&self) -> Result<Val, NoMemory>
        ensures { IfOk result (λ v. v ≡ self.now) }
    {
        let bytes = self.bytes.clone()?;
        Ok(Val { bytes })
    }
}

impl PartialEq for Val {
    ghost use Rattle.std.specs.Prelude.{nat_eq};
    ghost use Rattle.std.specs.Cmp.{partial_equiv_from_equiv};
    ghost use Rattle.std.specs.Cmp.Lexicographic.{pointwise, nat_list_eq_equiv};

    ghost eq = { pointwise nat_eq };

    ghost laws = { partial_equiv_from_equiv nat_list_eq_equiv };

    fn eq(&self, other: &Val) -> bool {
        self.bytes == other.bytes
    }
}

impl Eq for Val {
    ghost use Rattle.std.specs.Cmp.Lexicographic.{nat_list_eq_equiv};

    ghost laws = { nat_list_eq_equiv };
}
