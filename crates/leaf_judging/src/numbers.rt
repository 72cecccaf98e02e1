// The numbers of leaves, by their ids.
ghost use Rattle.std.specs.Prelude.{◌≡◌, ◌≢◌, ℕ, false, IsSome, Some, None, OnOk, OnErr, box_value};
ghost use Rattle.std.specs.Option.{option_copied, option_map};
ghost use Rattle.std.specs.BTreeMap.{get, Updates, IsUnchanged};
ghost use Rattle.std.specs.Ordering.{nat_cmp, is_eq};
ghost use Rattle.leaf_dual.specs.declared.dual.LagValue.TheVariants.{Minus};
ghost use Rattle.leaf_judging.specs.declared.closing.LeafNumber.{LeafNumber};
ghost use Rattle.leaf_judging.specs.declared.closing.LeafNumber.TheVariants.{Lag};
ghost use Rattle.leaf_judging.specs.Numbers.{kept_entry, kept_number, PutsEntry, KeepsOtherNumbers, KeepsOtherTwo, HasBoth};
ghost use Rattle.leaf_judging.specs.private.Numbers.{AreSameNumbers};

use crate::closing::LeafNumber;
use crate::entry::LeafEntry;
use crate::optional::boxed;
use leaf_dual::LagValue;
use std::alloc::{AllocError, Global};
use std::collections::BTreeMap;

/// Puts a value under a key. It stands apart for any value, since the answer of the map's own call holds one.
fn insert<V: Drop>(map: &mut BTreeMap<u64, V>, key: u64, value: V) -> Result<(), AllocError>
    ensures updates { OnOk result (Updates nat_cmp map.old map.new key (Some value)) }
    ensures same { OnErr result (IsUnchanged map.old map.new) }
{
    map.insert(key, value)?;
    Ok(())
}

/// Puts another value in the place of one that is kept on the heap, which takes no memory.
fn put_over<V: Drop>(map: &mut BTreeMap<u64, Box<V>>, key: u64, value: V)
    requires { IsSome (get nat_cmp map.old key) }
    ensures value { option_map box_value (get nat_cmp map.new key) ≡ Some value }
    ensures others { (k : ℕ) → is_eq (nat_cmp key k) ≡ false → get nat_cmp map.new k ≡ get nat_cmp map.old k }
{
    match map.get_mut(&key) {
        Some(held) => {
            let _ = Box::replace(held, value);
        }
        None => unreachable!(),
    }
}

/// The numbers of leaves, each under the leaf's id with the totals of its lists, so that none is computed twice. The entries are on
/// the heap, since a map's nodes are half empty. A function that hands a number on by value names `LagValue`, without which its
/// proof isn't told that type.
#[derive(Drop)]
pub struct LeafNumbers {
    alloc: Global,
    kept: BTreeMap<u64, Box<LeafEntry>>,
}

#[tactic(auto, unfolding(crate::specs::Numbers::kept_entry))]
impl LeafNumbers {
    /// No number.
    pub(crate) fn new(alloc: Global) -> LeafNumbers {
        LeafNumbers {
            alloc,
            kept: BTreeMap::new(alloc),
        }
    }

    /// What is kept under the id.
    pub(crate) fn entry(&self, id: u64) -> Option<&LeafEntry>
        ensures { option_copied result ≡ kept_entry self.now id }
    {
        match self.kept.get(&id) {
            Some(held) => Some(held.as_ref()),
            None => None,
        }
    }

    /// The number that is kept under the id.
    pub fn get(&self, id: u64) -> Option<LeafNumber>
        ensures { result ≡ kept_number self.now id }
    {
        match self.entry(id) {
            Some(entry) => Some(entry.number),
            None => None,
        }
    }

    /// The number that is kept under the id, and where there is none that of a leaf of which nothing is known.
    pub fn number_or_minus(&self, id: u64) -> LeafNumber
        ensures kept { (n : LeafNumber) → kept_number self.now id ≡ Some n → result ≡ n }
        ensures unknown { kept_number self.now id ≡ None → result ≡ Lag Minus }
    {
        match self.entry(id) {
            Some(entry) => entry.number,
            None => LeafNumber::Lag(LagValue::Minus),
        }
    }

    /// Keeps an entry under the id.
    ///
    /// # Errors
    ///
    /// Only for want of memory: the entries stay.
    pub(crate) fn put(&mut self, id: u64, entry: LeafEntry) -> Result<(), AllocError>
        ensures put { OnOk result (PutsEntry self.old id entry self.new) }
        ensures kept { OnErr result (AreSameNumbers self.old self.new) }
    {
        let held = boxed(self.alloc, entry)?;
        insert(&mut self.kept, id, held)?;
        Ok(())
    }

    /// Keeps the entries of two ids.
    ///
    /// # Errors
    ///
    /// Only for want of memory: the first of them may be kept.
    pub fn put_both(
        &mut self,
        first: u64,
        left: LeafEntry,
        second: u64,
        right: LeafEntry,
    ) -> Result<(), AllocError>
        requires { first ≢ second }
        ensures put { OnOk result (HasBoth self.new first left second right) }
        ensures others { KeepsOtherTwo self.old first second self.new }
    {
        match self.put(first, left) {
            Ok(()) => self.put(second, right),
            Err(error) => {
                drop(right);
                Err(error)
            }
        }
    }

    /// Keeps another entry under an id that has one, which takes no memory.
    pub fn set(&mut self, id: u64, entry: LeafEntry)
        requires { IsSome (kept_entry self.old id) }
        ensures { PutsEntry self.old id entry self.new }
    {
        put_over(&mut self.kept, id, entry);
    }

    /// Keeps no entry under the id.
    pub fn remove(&mut self, id: u64)
        ensures gone { kept_entry self.new id ≡ None }
        ensures others { KeepsOtherNumbers self.old id self.new }
    {
        let _ = self.kept.remove(&id);
    }
}
