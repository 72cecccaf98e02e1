// Numbers beside names, from the words of a line, and what words give one after the other.
ghost use Rattle.std.specs.Prelude.{◌≡◌, ◌≤◌, ◌++◌, ◌∷◌, map, [], IfOk, Result, Ok, Some, None, ℕ};
ghost use Rattle.std.specs.Option.{ForSome};
ghost use Rattle.lp_model.specs.Edits.{Named};
ghost use Rattle.cert_text.specs.Numbers.{number_code};
ghost use Rattle.cert_text.specs.Lines.{beside, named_in};
ghost use Rattle.frac_text.specs.Parsing.{spelled_number};
ghost use Rattle.cert_text.specs.Reading.{Says, min_or, joined_items};

use crate::line::LineFault;
use frac_text::NumFault;
use frac128::Frac;
use lp_model::{List, Name};
use std::alloc::{AllocError, Global};

/// What the words gave so far, and the least code of what is no item among them.
#[derive(Drop)]
pub(crate) struct Gathered<T> {
    pub(crate) items: List<T>,
    pub(crate) least: Option<u8>,
    ghost high: { ForSome least (λ code. 3 ≤ code) },
}

/// The code of a field that is no number.
pub fn number_code(fault: NumFault) -> u8
    ensures code { result ≡ number_code fault }
    ensures high { 3 ≤ result }
{
    match fault {
        NumFault::NotNumber => 4,
        NumFault::Wide => 5,
    }
}

/// The lesser of a code and the least one so far.
fn lesser(least: Option<u8>, code: u8) -> u8
    ensures { result ≡ min_or least code }
{
    match least {
        Some(other) => other.min(code),
        None => code,
    }
}

impl<T: Drop> Gathered<T> {
    /// Nothing yet.
    pub(crate) fn new(alloc: Global) -> Gathered<T>
        ensures items { result.items ≡ [] }
        ensures least { result.least ≡ None }
    {
        Gathered {
            items: List::new(alloc),
            least: None,
        }
    }

    /// One more item.
    pub(crate) fn add(&mut self, item: T) -> Result<(), AllocError>
        ensures items { IfOk result (λ _. self.new.items ≡ self.old.items ++ item ∷ []) }
        ensures least { IfOk result (λ _. self.new.least ≡ self.old.least) }
    {
        self.items.push(item)
    }

    /// One more code of what is no item.
    pub(crate) fn add_code(&mut self, code: u8)
        requires { 3 ≤ code }
        ensures items { self.new.items ≡ self.old.items }
        ensures least { self.new.least ≡ Some (min_or self.old.least code) }
    {
        self.least = Some(lesser(self.least, code));
    }

    /// One more field that is no number.
    fn add_fault(&mut self, fault: NumFault)
        ensures items { self.new.items ≡ self.old.items }
        ensures least { self.new.least ≡ Some (min_or self.old.least (number_code fault)) }
    {
        self.add_code(number_code(fault));
    }

    /// What was gathered, or its code.
    pub(crate) fn into_items(self) -> Result<List<T>, LineFault>
        ensures { Says (joined_items self.least self.items (Ok [])) result }
    {
        match self.least {
            Some(code) => Err(LineFault::Code(code)),
            None => Ok(self.items),
        }
    }
}

/// One more number beside a name.
fn add_named(
    gathered: &mut Gathered<(Name, Frac)>,
    alloc: Global,
    name: &[u8],
    number: &[u8],
) -> Result<(), AllocError>
    ensures { IfOk result (λ _. (rest : Result Named ℕ) → joined_items gathered.old.least gathered.old.items (beside name.now (spelled_number number.now) rest) ≡ joined_items gathered.new.least gathered.new.items rest) }
{
    match frac_text::parse(number) {
        Ok(value) => {
            let Ok(name) = Name::from_slice(alloc, name) else {
                return Err(AllocError);
            };
            gathered.add((name, value))
        }
        Err(fault) => {
            gathered.add_fault(fault);
            Ok(())
        }
    }
}

/// `NAME V` any number of times.
pub(crate) fn named_in(alloc: Global, words: &[&[u8]]) -> Result<List<(Name, Frac)>, LineFault>
    ensures { Says (named_in (map (λ word. word.now) words.now)) result }
{
    let mut gathered = Gathered::new(alloc);
    let mut rest = words;
    while let [name, number, more @ ..] = rest {
        match add_named(&mut gathered, alloc, name, number) {
            Ok(()) => rest = more,
            Err(_) => {
                drop(gathered);
                return Err(LineFault::Memory);
            }
        }
    }
    if rest.is_empty() {
        gathered.into_items()
    } else {
        drop(gathered);
        Err(LineFault::Code(3))
    }
}
