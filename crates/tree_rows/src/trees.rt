// What a tree by itself answers.
use crate::chains;
use anyhow::{Result, ensure};
use branch_tree::{Tree, TreeFault};
use lp_model::{ColId, Model};
use model_calls::{section, take_number};
use model_texts::Words;
use search_calls::{basis_in, multipliers_in, read_tree, take_split};
use std::alloc::Global;

/// Makes a call of a tree by the words behind it, and writes its answer.
fn answer(
    alloc: Global,
    tree: &mut Tree,
    model: &Model,
    word: &str,
    words: &mut Words,
    got: &mut String,
) -> Result<()> {
    match word {
        "limit" => tree.set_limit(take_number(words)?),
        "trim" => tree.trim_depth(take_number(words)?),
        "collapse" => collapse(tree, take_number(words)?, got)?,
        "chain" => chains::chain(alloc, tree, words, got)?,
        "again" => chains::again(alloc, tree)?,
        _ => read_tree(tree, model, word, words, got)?,
    }
    Ok(())
}

/// Makes a call of a tree, and writes its answer. The model gives columns and rows their names.
pub fn call(
    alloc: Global,
    tree: &mut Tree,
    model: &Model,
    word: &str,
    line: &str,
    got: &mut String,
) -> Result<()> {
    if word == "split" {
        return split(alloc, tree, model, line, got);
    }
    let mut words = section(alloc, line, "")?;
    answer(alloc, tree, model, word, &mut words, got)?;
    words.end()
}

/// Takes `ID COLUMN at V` of the front of a line.
fn split_of(alloc: Global, model: &Model, line: &str) -> Result<(u64, ColId, i128)> {
    let mut words = section(alloc, line, "")?;
    let id = take_number(&mut words)?;
    let (col, v) = take_split(model, &mut words)?;
    Ok((id, col, v))
}

/// `split ID COLUMN at V`, and the sections `multipliers` and `basis`.
fn split(
    alloc: Global,
    tree: &mut Tree,
    model: &Model,
    line: &str,
    got: &mut String,
) -> Result<()> {
    let (id, col, v) = split_of(alloc, model, line)?;
    ensure!(v < i128::MAX, "no room above {v}");
    let mult = multipliers_in(alloc, model, line, "multipliers")?;
    let basis = basis_in(alloc, model, line)?;
    let answer = tree.replace_leaf(id, col, v, mult, basis);
    push_ids(got, &answer)
}

/// Writes the ids of the two leaves, or why there are none.
pub fn push_ids(got: &mut String, answer: &Result<(u64, u64), TreeFault>) -> Result<()> {
    match answer {
        Ok((left, right)) => write!(got, "{left} {right}")?,
        Err(TreeFault::Full) => got.push_str("full")?,
        Err(TreeFault::NoLeaf) => got.push_str("no leaf")?,
        Err(TreeFault::Memory) => got.push_str("no memory")?,
    }
    Ok(())
}

/// Writes the id of the leaf that the split becomes.
fn collapse(tree: &mut Tree, id: u64, got: &mut String) -> Result<()> {
    if !tree.has_split(id) {
        got.push_str("no split")?;
        return Ok(());
    }
    let new = tree.collapse(id);
    write!(got, "{new}")?;
    Ok(())
}
