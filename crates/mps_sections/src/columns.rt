// The columns that a text states.
ghost use Rattle.std.specs.Prelude.{◌≡◌, ℕ, List as Items, ◌++◌, ◌∷◌, [], ◌||◌, false, IfOk, OnOk, map, length, is_some, bytes_eq};
ghost use Rattle.mps_sections.specs.Statements.{is_column, read_pair};
ghost use Rattle.mps_sections.specs.Sets.{has};
ghost use Rattle.mps_sections.specs.Faults.{is_last, numbers_of_last, has_again};

use crate::clearing::clear;
use crate::name_set::NameSet;
use crate::names::copied;
use crate::numbered::Numbered;
use crate::statements::ColumnLines;
use lp_model::{List, Name};
use mps_fields::Pairs;
use std::alloc::{AllocError, Global};
use std::mem;

/// A column that may still get lines.
#[derive(Drop)]
pub(crate) struct OpenColumn {
    name: Name,
    line: u64,
    marked: bool,
    numbers: Numbered,
}

/// The columns in order. The last one may still get lines.
#[derive(Drop)]
pub(crate) struct Columns {
    done: List<ColumnLines>,
    known: NameSet,
    last: Option<OpenColumn>,
    ghost started: { is_some last ≡ false → length done ≡ 0 },
    ghost same: { (q : Items ℕ) → has known q ≡ is_column done q },
}

impl OpenColumn {
    ghost use Rattle.mps_sections.specs.private.Shown.{open_shown};
    ghost use Rattle.mps_fields.specs.Fields.{pairs_shown};

    /// A column with its first line.
    fn new(
        alloc: Global,
        name: &[u8],
        line: u64,
        marked: bool,
        pairs: &Pairs,
    ) -> Result<OpenColumn, AllocError>
        ensures { IfOk result (λ c. open_shown c ≡ record { name = name.now; line = line; marked = marked; numbers = map read_pair (pairs_shown pairs.now) }) }
    {
        let mut numbers = Numbered::new(alloc);
        let Ok(()) = numbers.add(alloc, pairs) else {
            drop(numbers);
            return Err(AllocError);
        };
        let Ok(name) = copied(alloc, name) else {
            drop(numbers);
            return Err(AllocError);
        };
        Ok(OpenColumn {
            name,
            line,
            marked,
            numbers,
        })
    }

    fn is_named(&self, name: &[u8]) -> bool
        ensures { result ≡ bytes_eq self.now.name name.now }
    {
        self.name.as_slice() == name
    }

    /// One more line.
    fn add(&mut self, alloc: Global, pairs: &Pairs) -> Result<(), AllocError>
        ensures { OnOk result (open_shown self.new ≡ record { name = self.old.name; line = self.old.line; marked = self.old.marked; numbers = self.old.numbers.numbers ++ map read_pair (pairs_shown pairs.now) }) }
    {
        self.numbers.add(alloc, pairs)
    }

    /// The column without further lines.
    fn closed(self) -> ColumnLines
        ensures { result ≡ open_shown self }
    {
        let OpenColumn {
            name,
            line,
            marked,
            numbers,
        } = self;
        ColumnLines {
            name,
            line,
            marked,
            numbers: numbers.into_list(),
        }
    }

    /// Puts the column, without further lines, behind others, and its name among theirs.
    fn add_to(
        self,
        alloc: Global,
        done: &mut List<ColumnLines>,
        known: &mut NameSet,
    ) -> Result<(), AllocError>
        ensures done { OnOk result (done.new ≡ done.old ++ open_shown self ∷ []) }
        ensures known { OnOk result ((q : Items ℕ) → has known.new q ≡ (bytes_eq self.name q || has known.old q)) }
    {
        match known.insert(alloc, self.name.as_slice()) {
            Ok(()) => done.push(self.closed()),
            Err(error) => {
                drop(self);
                Err(error)
            }
        }
    }
}

impl Columns {
    ghost use Rattle.mps_sections.specs.Shown.{with_line, with_more};
    ghost use Rattle.mps_sections.specs.private.Shown.{columns_in, open_shown};
    ghost use Rattle.mps_fields.specs.Fields.{pairs_shown};

    /// No columns.
    pub(crate) fn new(alloc: Global) -> Columns
        ensures { columns_in result ≡ [] }
    {
        Columns {
            done: List::new(alloc),
            known: NameSet::new(alloc),
            last: None,
        }
    }

    /// Whether the last column has the name.
    pub(crate) fn is_last(&self, name: &[u8]) -> bool
        ensures { result ≡ is_last (columns_in self.now) name.now }
    {
        match &self.last {
            Some(column) => column.is_named(name),
            None => false,
        }
    }

    /// Whether a column has the name.
    pub(crate) fn contains(&self, name: &[u8]) -> bool
        ensures { result ≡ is_column (columns_in self.now) name.now }
    {
        match &self.last {
            Some(column) => column.is_named(name) || self.known.contains(name),
            None => false,
        }
    }

    /// How many columns there are.
    pub(crate) fn len(&self) -> usize
        ensures { result ≡ length (columns_in self.now) }
    {
        match &self.last {
            Some(_) => self.done.as_slice().len() + 1,
            None => 0,
        }
    }

    /// Whether a row of the pairs stands in the last column.
    pub(crate) fn has_again(&self, pairs: &Pairs) -> bool
        ensures { result ≡ has_again (numbers_of_last (columns_in self.now)) (pairs_shown pairs.now) }
    {
        match &self.last {
            Some(column) => column.numbers.has_again(pairs),
            None => false,
        }
    }

    /// One more line of the last column.
    fn add_last(&mut self, alloc: Global, pairs: &Pairs) -> Result<(), AllocError>
        ensures { OnOk result (columns_in self.new ≡ with_more (columns_in self.old) (map read_pair (pairs_shown pairs.now))) }
    {
        match &mut self.last {
            Some(column) => column.add(alloc, pairs),
            None => Ok(()),
        }
    }

    /// A further column. Where there is no memory for it no other one stays.
    fn add_column(&mut self, alloc: Global, column: OpenColumn) -> Result<(), AllocError>
        ensures { OnOk result (columns_in self.new ≡ columns_in self.old ++ open_shown column ∷ []) }
    {
        match mem::replace(&mut self.last, Some(column)) {
            Some(before) => match before.add_to(alloc, &mut self.done, &mut self.known) {
                Ok(()) => Ok(()),
                Err(error) => {
                    clear(alloc, &mut self.done, &mut self.known);
                    Err(error)
                }
            },
            None => Ok(()),
        }
    }

    /// The first line of a further column.
    fn add_further(
        &mut self,
        alloc: Global,
        name: &[u8],
        line: u64,
        marked: bool,
        pairs: &Pairs,
    ) -> Result<(), AllocError>
        ensures { OnOk result (columns_in self.new ≡ columns_in self.old ++ record { name = name.now; line = line; marked = marked; numbers = map read_pair (pairs_shown pairs.now) } ∷ []) }
    {
        let Ok(column) = OpenColumn::new(alloc, name, line, marked, pairs) else {
            return Err(AllocError);
        };
        self.add_column(alloc, column)
    }

    /// One more line: of the last column, or of a further one.
    pub(crate) fn add(
        &mut self,
        alloc: Global,
        name: &[u8],
        line: u64,
        marked: bool,
        pairs: &Pairs,
    ) -> Result<(), AllocError>
        ensures { OnOk result (columns_in self.new ≡ with_line (columns_in self.old) name.now line marked (map read_pair (pairs_shown pairs.now))) }
    {
        if self.is_last(name) {
            self.add_last(alloc, pairs)
        } else {
            self.add_further(alloc, name, line, marked, pairs)
        }
    }

    /// All columns.
    pub(crate) fn into_list(self) -> Result<List<ColumnLines>, AllocError>
        ensures { IfOk result (λ all. all ≡ columns_in self) }
    {
        let Columns { done, known, last } = self;
        drop(known);
        match last {
            Some(column) => {
                let mut all = done;
                match all.push(column.closed()) {
                    Ok(()) => Ok(all),
                    Err(error) => {
                        drop(all);
                        Err(error)
                    }
                }
            }
            None => Ok(done),
        }
    }
}
