// What a row has begun, and what its calls are answered.
use crate::{searches, solving, trees};
use anyhow::{Result, bail};
use branch_tree::Tree;
use frac128::Frac;
use lp_model::{Model, Sense};
use model_calls::{Callee, take_number};
use model_texts::{Words, empty_model};
use std::alloc::{AllocError, Global};
use std::mem::replace;
use tree_edit::Search;

/// The model, the tree and the search of a row, where it has begun them. Calls go to the search if there is one, else to the
/// tree, else to the model.
#[derive(Drop)]
pub struct Begun {
    alloc: Global,
    model: Option<Model>,
    tree: Option<Tree>,
    search: Option<Search>,
}

/// The limit of nodes that a line says.
fn limit_of(alloc: Global, line: &str) -> Result<u64> {
    let mut words = Words::new(alloc, line)?;
    take_number(&mut words)
}

/// A search of a model.
fn search_of(alloc: Global, model: &Model) -> Result<Search, AllocError> {
    let model = model.copy()?;
    Search::new(alloc, model)
}

impl Begun {
    /// Takes a model without rows and columns.
    fn begin_empty(&mut self) -> Result<()> {
        let zero = Frac::whole(0);
        let model = empty_model(self.alloc, Sense::Min, zero, zero)?;
        drop(replace(&mut self.model, Some(model)));
        Ok(())
    }

    /// A tree by itself. The columns and rows of its lists are said by place.
    fn begin_tree(&mut self, line: &str) -> Result<()> {
        let limit = limit_of(self.alloc, line)?;
        if self.model.is_none() {
            self.begin_empty()?;
        }
        let tree = Tree::new(self.alloc, limit)?;
        drop(replace(&mut self.tree, Some(tree)));
        Ok(())
    }

    /// A search of the row's model.
    fn begin_search(&mut self) -> Result<()> {
        let Some(model) = &self.model else {
            bail!("no `model` above");
        };
        let search = search_of(self.alloc, model)?;
        drop(replace(&mut self.search, Some(search)));
        Ok(())
    }

    /// Searches on with the search, which was taken out.
    fn solve(&mut self, search: Search, line: &str, got: &mut String) -> Result<()> {
        let (search, told) = solving::solve(self.alloc, search, line, got);
        drop(replace(&mut self.search, Some(search)));
        told
    }

    /// Makes a call that begins nothing, and writes its answer.
    fn call_begun(&mut self, word: &str, line: &str, got: &mut String) -> Result<()> {
        if word == "solve" {
            match self.search.take() {
                Some(search) => return self.solve(search, line, got),
                None => {}
            }
        }
        if let Some(search) = &mut self.search {
            return searches::call(self.alloc, search, word, line, got);
        }
        let Some(model) = &mut self.model else {
            bail!("no `model` above");
        };
        match &mut self.tree {
            Some(tree) => trees::call(self.alloc, tree, model, word, line, got),
            None => model_calls::call(self.alloc, model, word, line, got),
        }
    }
}

impl Callee for Begun {
    fn new(alloc: Global) -> Result<Self> {
        Ok(Begun {
            alloc,
            model: None,
            tree: None,
            search: None,
        })
    }

    fn takes_model(word: &str) -> bool {
        word == "model"
    }

    fn begin(&mut self, model: Model) -> Result<()> {
        drop(replace(&mut self.model, Some(model)));
        Ok(())
    }

    fn call(&mut self, word: &str, line: &str, got: &mut String) -> Result<()> {
        match word {
            "tree" => self.begin_tree(line)?,
            "search" => self.begin_search()?,
            _ => self.call_begun(word, line, got)?,
        }
        Ok(())
    }
}
