// The environment between two calls of the solver: a model, its search, and the answer that is held.
ghost use Rattle.std.specs.Prelude.{◌≡◌, OnOk, OnErr, IfErr, IfSome, Some, None};
ghost use Rattle.std.specs.Option.{option_copied};
ghost use Rattle.sound_searches.specs.Sound.{IsSound};
ghost use Rattle.kept_env.specs.Env.{no_model, model_of, with_answer, without_answer, Holds, IsHeld};
ghost use Rattle.kept_env.specs.Editing.{EditsEnv};
ghost use Rattle.kept_env.specs.Trimming.{TrimsEnv};
ghost use Rattle.kept_env.specs.declared.env.EnvFault.TheVariants.{Memory};

use crate::held::Held;
use lp_model::{Edit, Model};
use model_edits::EditFault;
use std::alloc::{AllocError, Global};
use std::mem;
use thiserror::Error;
use tree_edit::Search;

/// Why a call is refused.
#[derive(Debug, Drop, Error)]
pub enum EnvFault {
    /// No model is loaded.
    #[error("no model is loaded")]
    NoModel,
    /// No answer is held.
    #[error("no answer is held")]
    NoAnswer,
    /// The edit is refused.
    #[error("the edit is refused")]
    Edit(EditFault),
    /// There is no memory.
    #[error("there is no memory")]
    Memory,
}

impl From<AllocError> for EnvFault {
    ghost from_gives = { λ _ fault. fault ≡ Memory };

    fn from(_: AllocError) -> Self {
        EnvFault::Memory
    }
}

/// A model with the search of it, and the answer that is held. Contracts see a `PlainEnv`.
#[derive(Drop)]
pub struct Env {
    search: Option<Search>,
    held: Held,
    alloc: Global,
}

impl std::marker::Model for Env {
    ghost use Rattle.kept_env.specs.Env.{PlainEnv, IsEnv, env_code};

    ghost Value = { PlainEnv };

    ghost coded = { env_code };

    ghost view = { λ e. record { search = e.search; held = e.held } };

    ghost invariant = { λ e. IsEnv (record { search = e.search; held = e.held }) };
}

impl Env {
    /// An environment without a model. It takes no memory; its calls take theirs from `alloc`.
    pub fn new(alloc: Global) -> Env
        ensures { result ≡ no_model }
    {
        Env {
            search: None,
            held: Held::Nothing,
            alloc,
        }
    }

    /// Replaces the model, of which there is a search of one leaf from now on, and no answer is held. Where there is no memory
    /// all stays as before, and the new model is let go.
    pub fn load(&mut self, model: Model) -> Result<(), EnvFault>
        ensures loaded { OnOk result (Holds model self.new) }
        ensures kept { OnErr result (self.new ≡ self.old) }
        ensures fault { IfErr result (λ fault. fault ≡ Memory) }
    {
        let search = match Search::new(self.alloc, model) {
            Ok(search) => search,
            Err(AllocError) => return Err(EnvFault::Memory),
        };
        drop(self.search.replace(search));
        drop(mem::replace(&mut self.held, Held::Nothing));
        Ok(())
    }

    /// The model, if one is loaded.
    pub fn model(&self) -> Option<&Model>
        ensures { option_copied result ≡ model_of self.now }
    {
        match &self.search {
            Some(search) => Some(search.model()),
            None => None,
        }
    }

    /// The model with its cuts, points and nodes, as they are kept, if one is loaded.
    pub fn search(&self) -> Option<&Search>
        ensures search { option_copied result ≡ self.now.search }
        ensures sound { IfSome self.now.search IsSound }
    {
        match &self.search {
            Some(search) => {
                let _sound = search.points();
                Some(search)
            }
            None => None,
        }
    }

    /// Which answer is held. The search that stands shows it.
    pub fn held(&self) -> &Held
        ensures held { result.now ≡ self.now.held }
        ensures shown { IsHeld self.now.search self.now.held }
    {
        &self.held
    }

    /// Takes the search out, so that whoever works it owns it. Until one is given no model is loaded. It takes no memory.
    pub fn take(&mut self) -> Option<Search>
        ensures taken { result ≡ self.old.search }
        ensures left { self.new ≡ no_model }
        ensures none { self.old.search ≡ None → self.old ≡ no_model }
    {
        drop(mem::replace(&mut self.held, Held::Nothing));
        mem::replace(&mut self.search, None)
    }

    /// Takes a search in the place of the one that stands, which is let go, and holds this answer of it.
    pub fn give(&mut self, search: Search, held: Held)
        requires { IsHeld (Some search) held }
        ensures { self.new ≡ with_answer search held }
    {
        drop(self.search.replace(search));
        drop(mem::replace(&mut self.held, held));
    }

    /// Makes an edit of the model. The search follows it: its nodes as far as they are still of use, each leaf judged anew, and the
    /// points that are still feasible. No answer is held from then on. After a refusal, and where there is no memory, all is as
    /// before.
    pub fn edit(&mut self, edit: Edit) -> Result<(), EnvFault>
        ensures edits { EditsEnv self.old.search edit self.old result self.new }
    {
        let Some(search) = &mut self.search else {
            drop(edit);
            return Err(EnvFault::NoModel);
        };
        match search.edit(edit) {
            Ok(()) => {
                let old = mem::replace(&mut self.held, Held::Nothing);
                drop(old);
                Ok(())
            }
            Err(fault) => Err(EnvFault::Edit(fault)),
        }
    }

    /// Makes each split at a depth (the root is at 0), with all that is below it, one leaf with the split's multipliers and basis,
    /// which is judged. No answer is held from then on. Where there is no memory all is as before.
    pub fn trim(&mut self, depth: u64) -> Result<(), EnvFault>
        ensures trims { TrimsEnv self.old.search depth self.old result self.new }
    {
        let Some(search) = &mut self.search else {
            return Err(EnvFault::NoModel);
        };
        match search.trim(depth) {
            Ok(()) => {
                let dropped = mem::replace(&mut self.held, Held::Nothing);
                drop(dropped);
                Ok(())
            }
            Err(AllocError) => Err(EnvFault::Memory),
        }
    }

    /// Replaces model and search by this search, and no answer is held. The old search is let go.
    pub fn restore(&mut self, search: Search)
        ensures { self.new ≡ without_answer search }
    {
        let old = self.search.replace(search);
        drop(old);
        drop(mem::replace(&mut self.held, Held::Nothing));
    }

    /// Lets the environment go, with the search that it has. How that is done is shown here, and nowhere above.
    pub fn end(self) {
        drop(self);
    }
}
