// The text of a fraction: `n` or `n/d`.
ghost use Rattle.std.specs.Prelude.{◌≡◌, ◌++◌, length, take, OnOk, Some};
ghost use Rattle.frac128.specs.Printing.{printed};

use crate::frac::Frac;
use itoa::Buffer;
use std::alloc::AllocError;
use std::fmt;

impl Frac {
    /// Puts the fraction's text behind what is there: `n` or `n/d`. Where memory is wanting, only a part of it stands there.
    pub fn write_to(&self, text: &mut Vec<u8>) -> Result<(), AllocError>
        ensures written { OnOk result (text.new.items ≡ text.old.items ++ printed self.now) }
        ensures begins { take (length text.old.items) text.new.items ≡ text.old.items }
    {
        let mut buffer = Buffer::new();
        match text.extend_from_slice(buffer.format(self.numerator()).as_bytes()) {
            Ok(()) => {}
            Err(error) => return Err(error),
        }
        if self.is_whole() {
            return Ok(());
        }
        text.push(b'/')?;
        match text.extend_from_slice(buffer.format(self.denominator()).as_bytes()) {
            Ok(()) => Ok(()),
            Err(error) => Err(error),
        }
    }
}

impl fmt::Display for Frac {
    ghost output = { λ x. Some (printed x) };

    fn fmt<W: fmt::Write>(&self, f: &mut fmt::Formatter<W>) -> fmt::Result {
        if self.is_whole() {
            write!(f, "{}", self.numerator())
        } else {
            write!(f, "{}/{}", self.numerator(), self.denominator())
        }
    }
}
