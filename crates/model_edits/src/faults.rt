// Why an edit is refused.
ghost use Rattle.std.specs.Prelude.{◌≡◌, ◌⊎◌};
ghost use Rattle.model_edits.specs.declared.faults.EditFault.TheVariants.{NoSuch, Duplicate, IntegerUnbounded, Ranged, Memory};

use lp_model::{Name, copy_name};
use std::alloc::AllocError;
use thiserror::Error;

/// Why an edit is refused.
#[derive(Debug, Drop, Error)]
pub enum EditFault {
    /// No row or column has the name.
    #[error("no row or column has the name")]
    NoSuch(Name),
    /// The name is taken.
    #[error("the name is taken")]
    Duplicate(Name),
    /// The model would have more rows, columns or entries than this.
    #[error("the model would be too large")]
    Limit(u64),
    /// An integer column would lack a bound.
    #[error("an integer column would lack a bound")]
    IntegerUnbounded(Name),
    /// A row would have no side, or sides that cross or are too far apart to compute with.
    #[error("a row would have no sides to compute with")]
    Ranged(Name),
    /// There is no memory.
    #[error("there is no memory")]
    Memory,
}

impl From<AllocError> for EditFault {
    ghost from_gives = { λ _ f. f ≡ Memory };

    fn from(_error: AllocError) -> EditFault {
        EditFault::Memory
    }
}

/// No row or column has the name, or that there is no memory to tell it.
pub(crate) fn no_such(name: &Name) -> EditFault
    ensures { (result ≡ Memory) ⊎ (result ≡ NoSuch name.now) }
{
    match copy_name(name) {
        Ok(name) => EditFault::NoSuch(name),
        Err(_) => EditFault::Memory,
    }
}

/// The name is taken, or that there is no memory to tell it.
pub(crate) fn duplicate(name: &Name) -> EditFault
    ensures { (result ≡ Memory) ⊎ (result ≡ Duplicate name.now) }
{
    match copy_name(name) {
        Ok(name) => EditFault::Duplicate(name),
        Err(_) => EditFault::Memory,
    }
}

/// The integer column of the name would lack a bound, or that there is no memory to tell it.
pub(crate) fn integer_unbounded(name: &Name) -> EditFault
    ensures { (result ≡ Memory) ⊎ (result ≡ IntegerUnbounded name.now) }
{
    match copy_name(name) {
        Ok(name) => EditFault::IntegerUnbounded(name),
        Err(_) => EditFault::Memory,
    }
}

/// The row of the name would have no sides to compute with, or that there is no memory to tell it.
pub(crate) fn ranged(name: &Name) -> EditFault
    ensures { (result ≡ Memory) ⊎ (result ≡ Ranged name.now) }
{
    match copy_name(name) {
        Ok(name) => EditFault::Ranged(name),
        Err(_) => EditFault::Memory,
    }
}
