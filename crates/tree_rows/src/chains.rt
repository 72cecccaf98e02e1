// Deep trees: chains of splits, and a tree made again of its own nodes.

use crate::trees::push_ids;
use anyhow::{Result, bail};
use branch_tree::Tree;
use lp_model::{Basis, ColId, List};
use model_calls::take_number;
use model_texts::Words;
use std::alloc::{AllocError, Global};
use std::mem::replace;

/// Splits leaves one below the other, and writes the ids of the last two, or why there are none.
fn split_down(
    alloc: Global,
    tree: &mut Tree,
    first: u64,
    is_left: bool,
    splits: u64,
    got: &mut String,
) -> Result<()> {
    let mut id = first;
    let mut answer = Ok((0, 0));
    for _ in 0..splits {
        answer = tree.replace_leaf(id, ColId(0), 0, List::new(alloc), Basis::empty(alloc));
        let Ok((left, right)) = &answer else {
            break;
        };
        id = if is_left { *left } else { *right };
    }
    push_ids(got, &answer)
}

/// `chain ID left N` or `chain ID right N`: splits the leaf on the first column at 0, and so on N times, each time the left or the
/// right child of the split before.
pub fn chain(alloc: Global, tree: &mut Tree, words: &mut Words, got: &mut String) -> Result<()> {
    let first = take_number(words)?;
    let is_left = words.takes("left");
    if !is_left && !words.takes("right") {
        bail!("no `left` and no `right`");
    }
    let splits = take_number(words)?;
    split_down(alloc, tree, first, is_left, splits, got)
}

/// The tree that is made of the nodes of another in preorder.
fn made_again(alloc: Global, tree: &Tree) -> Result<Tree, AllocError> {
    let _numbered = tree.nodes();
    let nodes = tree.data_nodes()?;
    Tree::from_preorder(alloc, tree.limit(), nodes)
}

/// Goes over to the tree that is made of the nodes of this one.
pub fn again(alloc: Global, tree: &mut Tree) -> Result<()> {
    let made = made_again(alloc, tree)?;
    drop(replace(tree, made));
    Ok(())
}
