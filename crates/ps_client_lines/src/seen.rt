//! Keys that come once.

ghost use Rattle.std.specs.Prelude.{◌≡◌, ◌++◌, ◌∷◌, [], true, IfErr, OnOk};
ghost use Rattle.std.specs.List.{IsDistinct, list_any};
ghost use Rattle.ps_client_lines.specs.Refusing.{OnBad};

use crate::faults::Refusal;
use indexmap::IndexSet;
use ps_client_log::Hashing;
use std::hash::Hash;

// Notes one more key, which was not noted yet.
pub fn note<T: Eq + Hash + Drop>(seen: &mut IndexSet<T, Hashing>, key: T) -> Result<(), Refusal>
    ensures keys { OnOk result (seen.new.keys ≡ seen.old.keys ++ key ∷ []) }
    ensures once { OnOk result (IsDistinct T.eq seen.new.keys) }
    ensures twice { IfErr result (OnBad (list_any (T.eq key) seen.old.keys ≡ true)) }
{
    if seen.insert(key)? {
        Ok(())
    } else {
        Err(Refusal::Bad)
    }
}
