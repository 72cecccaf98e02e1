// A map from names to places.
ghost use Rattle.std.specs.Prelude.{◌≡◌, ℕ, List, None, Some, if◌then◌else◌, bytes_eq, OnOk};
ghost use Rattle.mps_model.specs.Places.{find};

use std::alloc::{AllocError, Global};
use std::collections::BTreeMap;

/// A place for each of some names.
#[derive(Drop)]
pub(crate) struct NameIndex {
    places: BTreeMap<Vec<u8>, usize>,
}

#[tactic(auto, unfolding(crate::specs::Places::find))]
impl NameIndex {
    /// No names.
    pub(crate) fn new(alloc: Global) -> NameIndex
        ensures { (q : List ℕ) → find result q ≡ None }
    {
        NameIndex {
            places: BTreeMap::new(alloc),
        }
    }

    /// The place of a name, if it has one.
    pub(crate) fn find(&self, name: &[u8]) -> Option<usize>
        ensures { result ≡ find self.now name.now }
    {
        match self.places.get(name) {
            Some(place) => Some(*place),
            None => None,
        }
    }

    /// The places with that of one more name.
    pub(crate) fn insert(
        &mut self,
        alloc: Global,
        name: &[u8],
        place: usize,
    ) -> Result<(), AllocError>
        ensures { OnOk result ((q : List ℕ) → find self.new q ≡ (if bytes_eq name.now q then Some place else find self.old q)) }
    {
        let Ok(key) = Vec::from_slice(alloc, name) else {
            return Err(AllocError);
        };
        self.places.insert(key, place)?;
        Ok(())
    }
}
