// What stands in a tree, by itself or in a search.
use anyhow::{Result, bail};
use branch_tree::{LeafData, LeafState, Node, Tree};
use lp_model::{Basis, BoundChange, Model, Mult, Region, Side, Var};
use model_calls::take_number;
use model_texts::{Words, push_basis, push_multipliers, push_variable};

/// Makes a call that changes nothing of the tree, and writes its answer.
pub fn read_tree(
    tree: &Tree,
    model: &Model,
    word: &str,
    words: &mut Words,
    got: &mut String,
) -> Result<()> {
    match word {
        "leaf" => leaf(tree, model, take_number(words)?, got),
        "region" => region(tree, model, take_number(words)?, got),
        "node" => node(tree, model, take_number(words)?, got),
        "nodes" => nodes(tree, got),
        "size" => size(tree, got),
        "next-ids" => next_ids(tree, got),
        _ => bail!("no call: `{word}`"),
    }
}

/// Writes a word and the multipliers behind it, where there are any.
fn push_named(got: &mut String, model: &Model, word: &str, mult: &Mult) -> Result<()> {
    if !mult.as_slice().is_empty() {
        write!(got, " {word}")?;
        push_multipliers(got, model, mult)?;
    }
    Ok(())
}

/// Writes `basis` and its variables, where there are any.
fn push_named_basis(got: &mut String, model: &Model, basis: &Basis) -> Result<()> {
    if !basis.basic.as_slice().is_empty() || !basis.high.as_slice().is_empty() {
        got.push_str(" basis")?;
        push_basis(got, model, basis)?;
    }
    Ok(())
}

fn push_leaf(got: &mut String, model: &Model, kept: &LeafData) -> Result<()> {
    match kept.state {
        LeafState::IsOpen => got.push_str("open")?,
        LeafState::IsClosed => got.push_str("closed")?,
    }
    push_named(got, model, "multipliers", &kept.mult)?;
    push_named(got, model, "farkas", &kept.farkas)?;
    push_named_basis(got, model, &kept.basis)
}

/// Writes what a leaf keeps.
fn leaf(tree: &Tree, model: &Model, id: u64, got: &mut String) -> Result<()> {
    match tree.leaf(id) {
        Some(kept) => push_leaf(got, model, kept)?,
        None => got.push_str("none")?,
    }
    Ok(())
}

/// Writes what a split keeps.
fn push_split(got: &mut String, model: &Model, node: &Node) -> Result<()> {
    match node {
        Node::Split {
            col,
            v,
            mult,
            basis,
            ..
        } => {
            push_variable(got, model, Var::Col(*col))?;
            write!(got, " at {v}")?;
            push_named(got, model, "multipliers", mult)?;
            push_named_basis(got, model, basis)
        }
        Node::Leaf { kept, .. } => push_leaf(got, model, kept),
    }
}

fn id_of(node: &Node) -> u64 {
    match node {
        Node::Split { id, .. } => *id,
        Node::Leaf { id, .. } => *id,
    }
}

/// Writes what a node keeps, a split or a leaf.
fn node(tree: &Tree, model: &Model, id: u64, got: &mut String) -> Result<()> {
    for node in &tree.preorder()? {
        if id_of(node) == id {
            return push_split(got, model, node);
        }
    }
    got.push_str("none")?;
    Ok(())
}

/// Writes how many nodes there are, and each one, a split before those below it.
fn push_nodes(got: &mut String, count: u64, nodes: &[Node]) -> Result<()> {
    write!(got, "{count}:")?;
    for node in nodes {
        let kind = match node {
            Node::Split { .. } => "split",
            Node::Leaf { .. } => "leaf",
        };
        write!(got, " {kind} {}", id_of(node))?;
    }
    Ok(())
}

fn nodes(tree: &Tree, got: &mut String) -> Result<()> {
    let nodes = tree.preorder()?;
    let pushed = push_nodes(got, tree.nodes(), &nodes);
    drop(nodes);
    pushed
}

/// Writes how many nodes there are in preorder.
fn size(tree: &Tree, got: &mut String) -> Result<()> {
    let nodes = tree.preorder()?;
    write!(got, "{}", nodes.len())?;
    Ok(())
}

/// Writes the ids that a split would give.
fn next_ids(tree: &Tree, got: &mut String) -> Result<()> {
    match tree.next_ids() {
        Some((left, right)) => write!(got, "{left} {right}")?,
        None => got.push_str("none")?,
    }
    Ok(())
}

fn push_change(got: &mut String, model: &Model, change: &BoundChange) -> Result<()> {
    got.push(' ')?;
    push_variable(got, model, Var::Col(change.col))?;
    match change.side {
        Side::Lo => write!(got, " {}..", change.v)?,
        Side::Hi => write!(got, " ..{}", change.v)?,
    }
    Ok(())
}

/// Writes bound changes.
pub fn push_region(got: &mut String, model: &Model, region: &Region) -> Result<()> {
    for change in region.as_slice() {
        push_change(got, model, change)?;
    }
    Ok(())
}

/// Writes the bound changes on the way to a leaf.
fn region(tree: &Tree, model: &Model, id: u64, got: &mut String) -> Result<()> {
    let Some(region) = tree.region_of(id)? else {
        got.push_str("none")?;
        return Ok(());
    };
    push_region(got, model, &region)
}
