// What the words of a cut's line say.
ghost use Rattle.std.specs.Prelude.{◌≡◌, ◌++◌, ◌∷◌, [], map, IfOk};
ghost use Rattle.cert_text.specs.CutLines.{sign_in, literals_in, cut_line_in};
ghost use Rattle.cert_text.specs.Reading.{Says};

use crate::cert::NamedCut;
use crate::line::LineFault;
use lp_model::{List, Name, Side};
use std::alloc::{AllocError, Global};

/// Whether the sign of a literal is `+`, where it has a sign and a name.
fn sign_in(word: &[u8]) -> Option<bool>
    ensures { result ≡ sign_in word.now }
{
    if word.len() < 2 {
        return None;
    }
    if word[0] == b'+' {
        Some(true)
    } else if word[0] == b'-' {
        Some(false)
    } else {
        None
    }
}

/// One more literal.
fn add_literal(
    literals: &mut List<(Name, bool)>,
    alloc: Global,
    name: &[u8],
    plus: bool,
) -> Result<(), AllocError>
    ensures { IfOk result (λ _. literals.new ≡ literals.old ++ (name.now, plus) ∷ []) }
{
    let Ok(name) = Name::from_slice(alloc, name) else {
        return Err(AllocError);
    };
    literals.push((name, plus))
}

/// `+NAME` and `-NAME` any number of times.
fn literals_in(alloc: Global, words: &[&[u8]]) -> Result<List<(Name, bool)>, LineFault>
    ensures { Says (literals_in (map (λ word. word.now) words.now)) result }
{
    let mut literals = List::new(alloc);
    for word in words {
        let Some(plus) = sign_in(word) else {
            drop(literals);
            return Err(LineFault::Code(3));
        };
        match add_literal(&mut literals, alloc, &word[1..], plus) {
            Ok(()) => {}
            Err(_) => {
                drop(literals);
                return Err(LineFault::Memory);
            }
        }
    }
    Ok(literals)
}

/// What `cut` with these further words says.
pub(crate) fn cut_in(alloc: Global, words: &[&[u8]]) -> Result<NamedCut, LineFault>
    ensures { Says (cut_line_in (map (λ word. word.now) words.now)) result }
{
    let [row, side, more @ ..] = words else {
        return Err(LineFault::Code(3));
    };
    let Some(side) = Side::of_word(side) else {
        return Err(LineFault::Code(3));
    };
    let literals = match literals_in(alloc, more) {
        Ok(literals) => literals,
        Err(fault) => return Err(fault),
    };
    if literals.as_slice().is_empty() {
        drop(literals);
        return Err(LineFault::Code(3));
    }
    match Name::from_slice(alloc, row) {
        Ok(row) => Ok(NamedCut {
            row,
            side,
            literals,
        }),
        Err(_) => {
            drop(literals);
            Err(LineFault::Memory)
        }
    }
}
