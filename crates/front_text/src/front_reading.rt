// What the lines of a front's text state so far.
ghost use Rattle.std.specs.Prelude.{◌≡◌, ◌+◌, ◌<◌, ◌≤◌, ◌^◌, ◌++◌, ◌∷◌, [], IfOk, Ok, Err, Some, None, option_to_list};
ghost use Rattle.cert_text.specs.Text.{due_after};
ghost use Rattle.front_text.specs.Text.{stated_front, with_point, tree_end_code, outcome_code, point_code, part_code, tree_cut_code, tree_node_code, front_place_code, front_code_in, front_end_code, stated_front_cert, after_line};
ghost use Rattle.front_text.specs.Whole.{IsFrontCertificate};

use crate::front::{FrontCert, FrontOutcome, FrontTree, TreeOf};
use crate::front_line::FrontStatement;
use cert_text::{CertNode, NamedCut};
use frac128::Frac;
use lp_model::{List, Name};
use std::alloc::{AllocError, Global};
use std::mem;

/// What the lines so far state.
#[derive(Drop)]
pub(crate) struct FrontReading {
    pub(crate) count: u64,
    pub(crate) outcomes: List<FrontOutcome>,
    /// The values of an outcome whose point is due.
    pub(crate) waiting: Option<(i128, i128)>,
    /// The trees before the last one.
    pub(crate) trees: List<FrontTree>,
    /// Of which inner model the last tree is, with its cuts and nodes.
    pub(crate) last: Option<TreeOf>,
    pub(crate) cuts: List<NamedCut>,
    pub(crate) nodes: List<CertNode>,
    /// How many trees are still due in it: one more than there are lines at most.
    pub(crate) due: u128,
    pub(crate) ended: bool,
    ghost counted: { due ≡ due_after 1 nodes },
    ghost few: { due ≤ count + 1 },
}

/// How many trees are due behind one more node, where one is due for it.
fn due_behind(due: u128, node: &CertNode) -> u128
    requires some { 0 < due }
    requires room { due < 2 ^ 64 }
    ensures due { result ≡ due_after due (node.now ∷ []) }
    ensures within { result ≤ due + 1 }
{
    match node {
        CertNode::Split { .. } => due + 1,
        CertNode::Bound(_) | CertNode::Farkas(_) | CertNode::Empty => due - 1,
    }
}

impl FrontReading {
    ghost use Rattle.front_text.specs.Reading.{IsNarrowFrontStatement, held_front, last_tree, IsFrontReadable};

    /// Nothing yet.
    pub(crate) fn new(alloc: Global) -> FrontReading
        ensures stated { held_front result ≡ stated_front [] }
        ensures kept { IsFrontReadable result }
    {
        let outcomes = List::new(alloc);
        let trees = List::new(alloc);
        let cuts = List::new(alloc);
        let nodes = List::new(alloc);
        FrontReading {
            count: 0,
            outcomes,
            waiting: None,
            trees,
            last: None,
            cuts,
            nodes,
            due: 1,
            ended: false,
        }
    }

    /// The code of what follows the last tree, by its nodes.
    fn tree_end_code(&self) -> Option<u8>
        ensures { result ≡ tree_end_code (held_front self.now).last }
    {
        if self.last.is_none() {
            None
        } else if self.nodes.as_slice().is_empty() {
            Some(6)
        } else if self.due == 0 {
            None
        } else {
            Some(7)
        }
    }

    /// The code of a tree, and of `end`, by what stands before it.
    fn part_code(&self) -> Option<u8>
        ensures { result ≡ part_code (held_front self.now) }
    {
        if self.waiting.is_some() || self.outcomes.as_slice().is_empty() {
            Some(6)
        } else {
            self.tree_end_code()
        }
    }

    /// The code of an outcome by what stands before it.
    fn outcome_code(&self) -> Option<u8>
        ensures { result ≡ outcome_code (held_front self.now) }
    {
        if self.waiting.is_some() || self.last.is_some() {
            Some(6)
        } else {
            None
        }
    }

    /// The code of a point by what stands before it.
    fn point_code(&self) -> Option<u8>
        ensures { result ≡ point_code (held_front self.now) }
    {
        if self.waiting.is_some() {
            None
        } else {
            Some(6)
        }
    }

    /// The code of a cut by what stands before it.
    fn cut_code(&self) -> Option<u8>
        ensures { result ≡ tree_cut_code (held_front self.now).last }
    {
        if self.last.is_some() && self.nodes.as_slice().is_empty() {
            None
        } else {
            Some(6)
        }
    }

    /// The code of a node by what stands before it.
    fn node_code(&self) -> Option<u8>
        ensures { result ≡ tree_node_code (held_front self.now).last }
    {
        if self.last.is_none() {
            Some(6)
        } else if self.due == 0 {
            Some(7)
        } else {
            None
        }
    }

    /// The code of a statement by what stands before it.
    fn place_code(&self, statement: &FrontStatement) -> Option<u8>
        ensures { result ≡ front_place_code (held_front self.now) statement.now }
    {
        match statement {
            FrontStatement::Outcome(_, _) => self.outcome_code(),
            FrontStatement::Point(_) => self.point_code(),
            FrontStatement::Tree(_) => self.part_code(),
            FrontStatement::Cut(_) => self.cut_code(),
            FrontStatement::Node(_) => self.node_code(),
            FrontStatement::End => self.part_code(),
            FrontStatement::Header | FrontStatement::Foreign => Some(6),
        }
    }

    /// The code of a line that says this, if it has one.
    pub(crate) fn statement_code(&self, statement: &FrontStatement) -> Option<u8>
        ensures { result ≡ front_code_in (held_front self.now) (Ok statement.now) }
    {
        if self.count == 0 {
            return if matches!(statement, FrontStatement::Header) {
                None
            } else {
                Some(1)
            };
        }
        if self.ended {
            return Some(8);
        }
        self.place_code(statement)
    }

    /// The code of a line that has this code by itself.
    pub(crate) fn fault_code(&self, code: u8) -> u8
        ensures { front_code_in (held_front self.now) (Err code) ≡ Some result }
    {
        if self.count == 0 {
            1
        } else if self.ended {
            8
        } else {
            code
        }
    }

    /// The code of what is missing where the text ends here.
    pub(crate) fn end_code(&self) -> Option<u8>
        ensures { result ≡ front_end_code (held_front self.now) }
    {
        if self.count == 0 {
            return Some(1);
        }
        if self.ended {
            return None;
        }
        match self.part_code() {
            Some(code) => Some(code),
            None => Some(8),
        }
    }

    /// The point of the values that wait for it.
    fn add_point(&mut self, point: List<(Name, Frac)>) -> Result<(), AllocError>
        ensures outcomes { IfOk result (λ _. self.new.outcomes ≡ self.old.outcomes ++ with_point self.old.waiting point) }
        ensures waiting { IfOk result (λ _. self.new.waiting ≡ None) }
        ensures parts { IfOk result (λ _. (self.new.count ≡ self.old.count) × (self.new.trees ≡ self.old.trees) × (self.new.last ≡ self.old.last) × (self.new.cuts ≡ self.old.cuts) × (self.new.nodes ≡ self.old.nodes) × (self.new.due ≡ self.old.due) × (self.new.ended ≡ self.old.ended)) }
    {
        let Some((v1, v2)) = self.waiting else {
            drop(point);
            return Ok(());
        };
        self.waiting = None;
        self.outcomes.push(FrontOutcome { v1, v2, point })
    }

    /// One more tree, behind the last one.
    fn begin_tree(&mut self, alloc: Global, of: TreeOf) -> Result<(), AllocError>
        ensures trees { IfOk result (λ _. self.new.trees ≡ self.old.trees ++ option_to_list (last_tree self.old.last self.old.cuts self.old.nodes)) }
        ensures last { IfOk result (λ _. (self.new.last ≡ Some of) × (self.new.cuts ≡ []) × (self.new.nodes ≡ [])) }
        ensures parts { IfOk result (λ _. (self.new.count ≡ self.old.count) × (self.new.outcomes ≡ self.old.outcomes) × (self.new.waiting ≡ self.old.waiting) × (self.new.ended ≡ self.old.ended)) }
    {
        let cuts = mem::replace(&mut self.cuts, List::new(alloc));
        let nodes = mem::replace(&mut self.nodes, List::new(alloc));
        let last = self.last;
        self.last = Some(of);
        self.due = 1;
        match last {
            Some(of) => self.trees.push(FrontTree { of, cuts, nodes }),
            None => {
                drop(cuts);
                drop(nodes);
                Ok(())
            }
        }
    }

    /// One more node, where a tree is due for it.
    fn add_node(&mut self, node: CertNode) -> Result<(), AllocError>
        requires due { 0 < self.old.due }
        requires room { self.old.due ≤ self.old.count }
        requires few { self.old.count < 2 ^ 64 }
        ensures nodes { IfOk result (λ _. self.new.nodes ≡ self.old.nodes ++ node ∷ []) }
        ensures parts { IfOk result (λ _. (self.new.count ≡ self.old.count) × (self.new.outcomes ≡ self.old.outcomes) × (self.new.waiting ≡ self.old.waiting) × (self.new.trees ≡ self.old.trees) × (self.new.last ≡ self.old.last) × (self.new.cuts ≡ self.old.cuts) × (self.new.ended ≡ self.old.ended)) }
    {
        let due = due_behind(self.due, &node);
        let Ok(()) = self.nodes.push(node) else {
            return Err(AllocError);
        };
        self.due = due;
        Ok(())
    }

    /// One more line, which says this and has no code.
    pub(crate) fn note(
        &mut self,
        alloc: Global,
        statement: FrontStatement,
    ) -> Result<(), AllocError>
        requires clean { front_code_in (held_front self.old) (Ok statement) ≡ None }
        requires room { self.old.count + 1 < 2 ^ 64 }
        requires narrow { IsNarrowFrontStatement statement }
        requires kept { IsFrontReadable self.old }
        ensures stated { IfOk result (λ _. held_front self.new ≡ after_line (held_front self.old) (Ok statement)) }
        ensures kept { IfOk result (λ _. IsFrontReadable self.new) }
    {
        self.count += 1;
        match statement {
            FrontStatement::Outcome(v1, v2) => self.waiting = Some((v1, v2)),
            FrontStatement::Point(point) => return self.add_point(point),
            FrontStatement::Tree(of) => return self.begin_tree(alloc, of),
            FrontStatement::Cut(cut) => return self.cuts.push(cut),
            FrontStatement::Node(node) => return self.add_node(node),
            FrontStatement::End => self.ended = true,
            FrontStatement::Header | FrontStatement::Foreign => {}
        }
        Ok(())
    }

    /// The certificate that the lines state, where they have no code and the text ends here.
    pub(crate) fn into_cert(self) -> Result<FrontCert, AllocError>
        requires ended { front_end_code (held_front self) ≡ None }
        requires kept { IsFrontReadable self }
        ensures cert { IfOk result (λ cert. cert ≡ stated_front_cert (held_front self)) }
        ensures certificate { IfOk result IsFrontCertificate }
    {
        self.parts()
    }

    /// The outcomes and the trees.
    fn parts(self) -> Result<FrontCert, AllocError>
        ensures { IfOk result (λ cert. cert ≡ stated_front_cert (held_front self)) }
    {
        let FrontReading {
            outcomes,
            trees,
            last,
            cuts,
            nodes,
            ..
        } = self;
        let mut trees = trees;
        if let Some(of) = last {
            match trees.push(FrontTree { of, cuts, nodes }) {
                Ok(()) => {}
                Err(error) => {
                    drop(outcomes);
                    drop(trees);
                    return Err(error);
                }
            }
        } else {
            drop(cuts);
            drop(nodes);
        }
        Ok(FrontCert { outcomes, trees })
    }
}
