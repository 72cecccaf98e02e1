// Derivations of cuts as words by the names of a model.
use anyhow::{Result, bail};
use lp_model::{Derivation, List, Literal, Model, RowId, Side, Var};
use model_texts::{Words, column_of, variable_of};
use std::alloc::Global;

/// The row that a word names.
fn row_of(model: &Model, word: &str) -> Result<RowId> {
    match variable_of(model, word)? {
        Var::Row(row) => Ok(row),
        _ => bail!("no row: `{word}`"),
    }
}

fn side_of(word: &str) -> Result<Side> {
    match word {
        "lo" => Ok(Side::Lo),
        "hi" => Ok(Side::Hi),
        _ => bail!("no side: `{word}`"),
    }
}

/// The literal `X` or `-X`.
fn literal_of(model: &Model, word: &str) -> Result<Literal> {
    let (plus, name) = match word.strip_prefix("-") {
        Some(name) => (false, name),
        None => (true, word),
    };
    let col = column_of(model, name)?;
    Ok(Literal { col, plus })
}

/// The literals that the words left say.
fn literals_of(alloc: Global, model: &Model, words: &mut Words) -> Result<List<Literal>> {
    let mut literals = List::new(alloc);
    for _ in 0..words.most() {
        if words.is_done() {
            break;
        }
        let word = words.next("literal")?;
        literals.push(literal_of(model, &word)?)?;
    }
    Ok(literals)
}

/// The derivation that a text says: `A hi X -Y`.
pub fn derivation_of(alloc: Global, model: &Model, text: &str) -> Result<Derivation> {
    let mut words = Words::new(alloc, text)?;
    let row = row_of(model, &words.next("row")?)?;
    let side = side_of(&words.next("side")?)?;
    let literals = literals_of(alloc, model, &mut words)?;
    Ok(Derivation {
        row,
        side,
        literals,
    })
}
