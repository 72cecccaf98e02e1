// What stands in a search.
use crate::told::read_tree;
use anyhow::Result;
use leaf_dual::LagValue;
use leaf_judging::LeafNumber;
use model_calls::{push_step, take_number};
use model_texts::{Words, push_point};
use tree_edit::Search;

/// Makes a call that changes nothing of the search, and writes its answer.
pub fn read_search(search: &Search, word: &str, words: &mut Words, got: &mut String) -> Result<()> {
    match word {
        "stands" => stands(search, got),
        "points" => points(search, got),
        "incumbent" => incumbent(search, got),
        "number" => number(search, take_number(words)?, got),
        _ => read_tree(search.tree(), search.model(), word, words, got),
    }
}

/// Writes how many nodes, open leaves and points there are, the next leaf, and the value against which leaves close.
fn stands(search: &Search, got: &mut String) -> Result<()> {
    let nodes = search.tree().nodes();
    let open = search.open_leaves();
    let points = search.points().len();
    write!(got, "nodes {nodes} open {open} points {points}")?;
    if let Some(next) = search.next_leaf() {
        write!(got, " next {next}")?;
    }
    if let Some(target) = search.target() {
        write!(got, " target {target}")?;
    }
    Ok(())
}

/// Writes the kept points, the oldest first, with a comma between two.
fn points(search: &Search, got: &mut String) -> Result<()> {
    for (at, point) in search.points().iter().enumerate() {
        if at > 0 {
            got.push(',')?;
        }
        push_point(got, search.model(), point)?;
    }
    if got.is_empty() {
        got.push_str("none")?;
    }
    Ok(())
}

/// Writes the oldest kept point of the best value.
fn incumbent(search: &Search, got: &mut String) -> Result<()> {
    match search.incumbent() {
        Some(point) => push_point(got, search.model(), point)?,
        None => got.push_str("none")?,
    }
    Ok(())
}

/// Writes the number of a leaf.
fn number(search: &Search, id: u64, got: &mut String) -> Result<()> {
    match &search.number(id) {
        None => got.push_str("none")?,
        Some(LeafNumber::Empty) => got.push_str("empty")?,
        Some(LeafNumber::Lag(LagValue::Minus)) => got.push_str("minus")?,
        Some(LeafNumber::Lag(LagValue::Num(number))) => write!(got, "{number}")?,
        Some(LeafNumber::Wide(step)) => push_step(got, search.model(), *step)?,
    }
    Ok(())
}
