// Sets of names.
ghost use Rattle.std.specs.Prelude.{◌≡◌, ◌||◌, ℕ, List, false, bytes_eq, OnOk, OnErr};
ghost use Rattle.mps_sections.specs.Sets.{has};

use std::alloc::{AllocError, Global};
use std::collections::BTreeSet;

/// A set of names.
#[derive(Drop)]
pub(crate) struct NameSet {
    keys: BTreeSet<Vec<u8>>,
}

#[tactic(auto, unfolding(crate::specs::Sets::has))]
impl NameSet {
    /// No names.
    pub(crate) fn new(alloc: Global) -> NameSet
        ensures { (q : List ℕ) → has result q ≡ false }
    {
        NameSet {
            keys: BTreeSet::new(alloc),
        }
    }

    /// Whether the set has the name.
    pub(crate) fn contains(&self, name: &[u8]) -> bool
        ensures { result ≡ has self.now name.now }
    {
        self.keys.contains(name)
    }

    /// The set with one more name.
    pub(crate) fn insert(&mut self, alloc: Global, name: &[u8]) -> Result<(), AllocError>
        ensures { OnOk result ((q : List ℕ) → has self.new q ≡ (bytes_eq name.now q || has self.old q)) }
    {
        let Ok(key) = Vec::from_slice(alloc, name) else {
            return Err(AllocError);
        };
        self.keys.insert(key)?;
        Ok(())
    }
}
