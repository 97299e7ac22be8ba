//! Keys.

ghost use Rattle.std.specs.Prelude.{◌≡◌, List, ℕ, IfOk, IfErr};
ghost use Rattle.vs_rows.specs.Names.{IsKey};
ghost use Rattle.vs_rows.specs.Faults.{IsCauseOf};

use crate::fault::RowFault;
use crate::name::{LONGEST_KEY, is_name};
use std::alloc::Global;
use std::cmp::Ordering;
use std::marker::Model;
use vs_base::NoMemory;

/// The key of a row: 1 to 64 visible characters, and not the mark `;` alone.
#[derive(Drop)]
pub struct Key {
    bytes: Vec<u8>,
}

impl Model for Key {
    ghost Value = { List ℕ };

    ghost view = { λ k. k.bytes.items };

    ghost invariant = { λ k. IsKey k.bytes.items };
}

impl Key {
    pub fn new(alloc: Global, bytes: &[u8]) -> Result<Key, RowFault>
        ensures ok { IfOk result (λ k. (k ≡ bytes.now) × IsKey bytes.now) }
        ensures err { IfErr result (λ fault. IsCauseOf IsKey fault bytes.now) }
    {
        if !is_name(bytes, LONGEST_KEY) {
            return Err(RowFault::BadText);
        }
        let bytes = Vec::from_slice(alloc, bytes)?;
        Ok(Key { bytes })
    }

    pub fn as_bytes(&self) -> &[u8]
        ensures value { result.now ≡ self.now }
        ensures name { IsKey self.now }
    {
        &self.bytes
    }

    pub fn try_clone(&self) -> Result<Key, NoMemory>
        ensures { IfOk result (λ k. k ≡ self.now) }
    {
        let bytes = self.bytes.clone()?;
        Ok(Key { bytes })
    }
}

impl PartialEq for Key {
    ghost use Rattle.std.specs.Prelude.{nat_eq};
    ghost use Rattle.std.specs.Cmp.{partial_equiv_from_equiv};
    ghost use Rattle.std.specs.Cmp.Lexicographic.{pointwise, nat_list_eq_equiv};

    ghost eq = { pointwise nat_eq };

    ghost laws = { partial_equiv_from_equiv nat_list_eq_equiv };

    fn eq(&self, other: &Key) -> bool {
        self.bytes == other.bytes
    }
}

impl Eq for Key {
    ghost use Rattle.std.specs.Cmp.Lexicographic.{nat_list_eq_equiv};

    ghost laws = { nat_list_eq_equiv };
}

/// Keys are compared byte by byte.
impl Ord for Key {
    ghost use Rattle.std.specs.Ordering.{nat_cmp};
    ghost use Rattle.std.specs.Cmp.Lexicographic.{slice_cmp, nat_list_cmp_total, texts_ties};
    ghost use Rattle.std.proofs.Common.{refl};

    ghost cmp = { slice_cmp nat_cmp };

    ghost total = { nat_list_cmp_total };

    ghost matches_partial_cmp = { λ _ _. refl };

    ghost matches_eq = { texts_ties };

    fn cmp(&self, other: &Key) -> Ordering {
        self.bytes.cmp(&other.bytes)
    }
}

impl PartialOrd for Key {
    ghost use Rattle.std.specs.Ordering.{nat_cmp, as_partial_cmp};
    ghost use Rattle.std.specs.Cmp.Lexicographic.{slice_cmp, texts_po};

    ghost partial_cmp = { as_partial_cmp (slice_cmp nat_cmp) };

    ghost laws = { texts_po };

    fn partial_cmp(&self, other: &Key) -> Option<Ordering> {
        Some(self.cmp(other))
    }
}
