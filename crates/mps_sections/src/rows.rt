// The rows that a text states.
ghost use Rattle.std.specs.Prelude.{◌≡◌, ◌||◌, ◌&&◌, not, ℕ, List as Items, [], ◌∷◌, ◌++◌, bytes_eq, Some, OnOk};
ghost use Rattle.mps_fields.specs.Words.{among};
ghost use Rattle.mps_sections.specs.Statements.{is_row_name, as_row, as_objective};
ghost use Rattle.mps_sections.specs.Sets.{has};

use crate::clearing::clear;
use crate::name_set::NameSet;
use crate::names::copied;
use crate::statements::RowLine;
use lp_model::{List, Name};
use mps_fields::{Pairs, RowKind};
use std::alloc::{AllocError, Global};

/// The rows with sides and the names of the rows of type N, each in order, and the sets of all their names and of those of
/// the rows with sides.
#[derive(Drop)]
pub(crate) struct Rows {
    pub sided: List<RowLine>,
    pub objectives: List<Name>,
    known: NameSet,
    with_sides: NameSet,
    ghost same: { (q : Items ℕ) → has known q ≡ (is_row_name sided q || among objectives q) },
    ghost sides: { (q : Items ℕ) → has with_sides q ≡ is_row_name sided q },
}

/// Puts the name of a row of type N behind others, and among the names of all rows.
fn add_objective(
    alloc: Global,
    objectives: &mut List<Name>,
    known: &mut NameSet,
    name: &[u8],
) -> Result<(), AllocError>
    ensures objectives { OnOk result (objectives.new ≡ objectives.old ++ name.now ∷ []) }
    ensures known { OnOk result ((q : Items ℕ) → has known.new q ≡ (bytes_eq name.now q || has known.old q)) }
{
    let Ok(()) = known.insert(alloc, name) else {
        return Err(AllocError);
    };
    let Ok(copy) = copied(alloc, name) else {
        return Err(AllocError);
    };
    objectives.push(copy)
}

/// Puts a row with sides behind others, and its name among the names of all rows and of those with sides.
fn add_sided(
    alloc: Global,
    sided: &mut List<RowLine>,
    known: &mut NameSet,
    with_sides: &mut NameSet,
    kind: RowKind,
    name: &[u8],
) -> Result<(), AllocError>
    ensures sided { OnOk result (sided.new ≡ sided.old ++ record { name = name.now; kind = kind } ∷ []) }
    ensures known { OnOk result ((q : Items ℕ) → has known.new q ≡ (bytes_eq name.now q || has known.old q)) }
    ensures with_sides { OnOk result ((q : Items ℕ) → has with_sides.new q ≡ (bytes_eq name.now q || has with_sides.old q)) }
{
    let Ok(()) = known.insert(alloc, name) else {
        return Err(AllocError);
    };
    let Ok(()) = with_sides.insert(alloc, name) else {
        return Err(AllocError);
    };
    let Ok(name) = copied(alloc, name) else {
        return Err(AllocError);
    };
    sided.push(RowLine { name, kind })
}

impl Rows {
    ghost use Rattle.std.specs.List.{list_any};
    ghost use Rattle.mps_fields.specs.Fields.{pairs_shown};

    /// No rows.
    pub(crate) fn new(alloc: Global) -> Rows
        ensures sided { result.sided ≡ [] }
        ensures objectives { result.objectives ≡ [] }
    {
        Rows {
            sided: List::new(alloc),
            objectives: List::new(alloc),
            known: NameSet::new(alloc),
            with_sides: NameSet::new(alloc),
        }
    }

    /// Whether a row has the name.
    pub(crate) fn contains(&self, name: &[u8]) -> bool
        ensures { result ≡ (is_row_name self.now.sided name.now || among self.now.objectives name.now) }
    {
        self.known.contains(name)
    }

    /// Whether a row with sides has the name.
    pub(crate) fn is_row(&self, name: &[u8]) -> bool
        ensures { result ≡ is_row_name self.now.sided name.now }
    {
        self.with_sides.contains(name)
    }

    /// Whether a row without sides has the name: it is of type N.
    pub(crate) fn is_free(&self, name: &[u8]) -> bool
        ensures { result ≡ ((is_row_name self.now.sided name.now || among self.now.objectives name.now) && not (is_row_name self.now.sided name.now)) }
    {
        self.known.contains(name) & !self.with_sides.contains(name)
    }

    /// Whether a row of the pairs isn't known.
    pub(crate) fn has_unknown(&self, pairs: &Pairs) -> bool
        ensures { result ≡ list_any (λ p. not (is_row_name self.now.sided p.row || among self.now.objectives p.row)) (pairs_shown pairs.now) }
    {
        match pairs {
            Pairs::Nothing => false,
            Pairs::One(p) => !self.contains(p.row),
            Pairs::Two(p, q) => !self.contains(p.row) || !self.contains(q.row),
        }
    }

    /// Whether a row of the pairs is known and has no sides.
    pub(crate) fn has_free(&self, pairs: &Pairs) -> bool
        ensures { result ≡ list_any (λ p. (is_row_name self.now.sided p.row || among self.now.objectives p.row) && not (is_row_name self.now.sided p.row)) (pairs_shown pairs.now) }
    {
        match pairs {
            Pairs::Nothing => false,
            Pairs::One(p) => self.is_free(p.row),
            Pairs::Two(p, q) => self.is_free(p.row) || self.is_free(q.row),
        }
    }

    /// One more row of type N. Where there is no memory for it no row stays.
    fn add_free(&mut self, alloc: Global, name: &[u8]) -> Result<(), AllocError>
        ensures sided { OnOk result (self.new.sided ≡ self.old.sided) }
        ensures objectives { OnOk result (self.new.objectives ≡ self.old.objectives ++ name.now ∷ []) }
    {
        match add_objective(alloc, &mut self.objectives, &mut self.known, name) {
            Ok(()) => Ok(()),
            Err(error) => {
                clear(alloc, &mut self.sided, &mut self.known);
                clear(alloc, &mut self.objectives, &mut self.with_sides);
                Err(error)
            }
        }
    }

    /// One more row that has sides. Where there is no memory for it no row stays.
    fn add_with_sides(
        &mut self,
        alloc: Global,
        kind: RowKind,
        name: &[u8],
    ) -> Result<(), AllocError>
        ensures sided { OnOk result (self.new.sided ≡ self.old.sided ++ record { name = name.now; kind = kind } ∷ []) }
        ensures objectives { OnOk result (self.new.objectives ≡ self.old.objectives) }
    {
        match add_sided(
            alloc,
            &mut self.sided,
            &mut self.known,
            &mut self.with_sides,
            kind,
            name,
        ) {
            Ok(()) => Ok(()),
            Err(error) => {
                clear(alloc, &mut self.sided, &mut self.known);
                clear(alloc, &mut self.objectives, &mut self.with_sides);
                Err(error)
            }
        }
    }

    /// One more row.
    pub(crate) fn add(
        &mut self,
        alloc: Global,
        kind: RowKind,
        name: &[u8],
    ) -> Result<(), AllocError>
        ensures sided { OnOk result (self.new.sided ≡ self.old.sided ++ as_row (Some kind) name.now) }
        ensures objectives { OnOk result (self.new.objectives ≡ self.old.objectives ++ as_objective (Some kind) name.now) }
    {
        match kind {
            RowKind::Free => self.add_free(alloc, name),
            _ => self.add_with_sides(alloc, kind, name),
        }
    }

    /// The names of the rows of type N, and the rows with sides.
    pub(crate) fn into_lists(self) -> (List<Name>, List<RowLine>)
        ensures objectives { result.0 ≡ self.objectives }
        ensures sided { result.1 ≡ self.sided }
    {
        let Rows {
            sided,
            objectives,
            known: _,
            with_sides: _,
        } = self;
        (objectives, sided)
    }
}
