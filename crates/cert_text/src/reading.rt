// What the lines of a certificate's text state so far.
ghost use Rattle.std.specs.Prelude.{◌≡◌, ◌+◌, ◌<◌, ◌≤◌, ◌^◌, ◌++◌, ◌∷◌, [], length, option_to_list, IfOk, Ok, Err, Some, None};
ghost use Rattle.cert_text.specs.Whole.{IsLawfulStatement, IsCertificate};
ghost use Rattle.cert_text.specs.Text.{stated, takes_point, takes_ray, lacks_point, lacks_ray, lacks_numbers, lacks_part, cut_code, node_code, end_tree_code, place_code, code_in, end_code, first_claim, first_named, cert_of, due_after};

use crate::cert::{Cert, CertNode, Claim, NamedCut};
use crate::line::Statement;
use frac128::Frac;
use lp_model::{List, Name};
use std::alloc::{AllocError, Global};

/// What the lines so far state.
#[derive(Drop)]
pub(crate) struct Reading {
    pub(crate) count: u64,
    pub(crate) claim: Option<Claim>,
    pub(crate) point: Option<List<(Name, Frac)>>,
    pub(crate) ray: Option<List<(Name, Frac)>>,
    pub(crate) cuts: List<NamedCut>,
    pub(crate) nodes: List<CertNode>,
    /// How many trees are still due: one more than there are lines at most.
    pub(crate) due: u128,
    pub(crate) ended: bool,
    ghost counted: { due ≡ due_after 1 nodes },
    ghost few: { due ≤ count + 1 },
}

/// How many trees are due behind one more node, where one is due for it.
fn due_behind(due: u128, node: &CertNode) -> u128
    requires some { 0 < due }
    requires room { due < 2 ^ 64 }
    ensures due { result ≡ due_after due (node.now ∷ []) }
    ensures within { result ≤ due + 1 }
{
    match node {
        CertNode::Split { .. } => due + 1,
        CertNode::Bound(_) | CertNode::Farkas(_) | CertNode::Empty => due - 1,
    }
}

/// The claim, as far as there is one.
fn claim_or_infeasible(claim: Option<Claim>) -> Claim
    ensures { result ≡ first_claim (option_to_list claim) }
{
    match claim {
        Some(claim) => claim,
        None => Claim::Infeasible,
    }
}

/// The numbers beside names, as far as there are some.
fn numbers_or_none(alloc: Global, numbers: Option<List<(Name, Frac)>>) -> List<(Name, Frac)>
    ensures { result ≡ first_named (option_to_list numbers) }
{
    match numbers {
        Some(numbers) => numbers,
        None => List::new(alloc),
    }
}

impl Reading {
    ghost use Rattle.cert_text.specs.Reading.{held, after, IsReadable};
    ghost use Rattle.cert_text.specs.declared.line.Statement.TheVariants.{End};

    /// Nothing yet.
    pub(crate) fn new(alloc: Global) -> Reading
        ensures stated { held result ≡ stated [] }
        ensures kept { IsReadable result }
    {
        let cuts = List::new(alloc);
        let nodes = List::new(alloc);
        Reading {
            count: 0,
            claim: None,
            point: None,
            ray: None,
            cuts,
            nodes,
            due: 1,
            ended: false,
        }
    }

    /// Whether the model is claimed unbounded, so that a ray is due and no nodes are.
    fn takes_ray(&self) -> bool
        ensures { result ≡ takes_ray (held self.now).claims }
    {
        matches!(self.claim, Some(Claim::Unbounded))
    }

    /// Whether the claim has a point.
    fn takes_point(&self) -> bool
        ensures { result ≡ takes_point (held self.now).claims }
    {
        match &self.claim {
            Some(Claim::Optimal(_)) => true,
            Some(Claim::Within { .. }) => true,
            Some(Claim::Unbounded) => true,
            Some(Claim::Infeasible) => false,
            None => false,
        }
    }

    /// Whether the claim has a point that isn't there yet.
    fn lacks_point(&self) -> bool
        ensures { result ≡ lacks_point (held self.now) }
    {
        self.takes_point() && self.point.is_none()
    }

    /// Whether the claim has a ray that isn't there yet.
    fn lacks_ray(&self) -> bool
        ensures { result ≡ lacks_ray (held self.now) }
    {
        self.takes_ray() && self.ray.is_none()
    }

    /// Whether the point or the ray is still due.
    fn lacks_numbers(&self) -> bool
        ensures { result ≡ lacks_numbers (held self.now) }
    {
        self.lacks_point() || self.lacks_ray()
    }

    /// Whether the claim, the point or the ray is still due.
    fn lacks_part(&self) -> bool
        ensures { result ≡ lacks_part (held self.now) }
    {
        self.claim.is_none() || self.lacks_numbers()
    }

    /// The code of `end` by the nodes.
    fn end_tree_code(&self) -> Option<u8>
        ensures { result ≡ end_tree_code (held self.now) }
    {
        if self.takes_ray() {
            None
        } else if self.nodes.as_slice().is_empty() {
            Some(6)
        } else if self.due == 0 {
            None
        } else {
            Some(7)
        }
    }

    /// The code of `end` by what stands before it.
    fn end_place_code(&self) -> Option<u8>
        ensures { result ≡ place_code (held self.now) End }
    {
        if self.lacks_part() {
            Some(6)
        } else {
            self.end_tree_code()
        }
    }

    /// The code of a cut by what stands before it.
    fn cut_code(&self) -> Option<u8>
        ensures { result ≡ cut_code (held self.now) }
    {
        if self.lacks_part() || self.takes_ray() {
            Some(6)
        } else if self.nodes.as_slice().is_empty() {
            None
        } else {
            Some(6)
        }
    }

    /// The code of a node by what stands before it.
    fn node_code(&self) -> Option<u8>
        ensures { result ≡ node_code (held self.now) }
    {
        if self.lacks_part() || self.takes_ray() {
            Some(6)
        } else if self.due == 0 {
            Some(7)
        } else {
            None
        }
    }

    /// The code of a statement by what stands before it.
    fn place_code(&self, statement: &Statement) -> Option<u8>
        ensures { result ≡ place_code (held self.now) statement.now }
    {
        match statement {
            Statement::Claims(_) if self.claim.is_none() => None,
            Statement::Point(_) if self.claim.is_some() && self.lacks_point() => None,
            Statement::Ray(_) if !self.lacks_point() && self.lacks_ray() => None,
            Statement::Cut(_) => self.cut_code(),
            Statement::Node(_) => self.node_code(),
            Statement::End => self.end_place_code(),
            _ => Some(6),
        }
    }

    /// The code of a line that says this, if it has one.
    pub(crate) fn statement_code(&self, statement: &Statement) -> Option<u8>
        ensures { result ≡ code_in (held self.now) (Ok statement.now) }
    {
        if self.count == 0 {
            return if matches!(statement, Statement::Header) {
                None
            } else {
                Some(1)
            };
        }
        if self.ended {
            return Some(8);
        }
        self.place_code(statement)
    }

    /// The code of a line that has this code by itself.
    pub(crate) fn fault_code(&self, code: u8) -> u8
        ensures { code_in (held self.now) (Err code) ≡ Some result }
    {
        if self.count == 0 {
            1
        } else if self.ended {
            8
        } else {
            code
        }
    }

    /// The code of what is missing where the text ends here.
    pub(crate) fn end_code(&self) -> Option<u8>
        ensures { result ≡ end_code (held self.now) }
    {
        if self.count == 0 {
            return Some(1);
        }
        if self.ended {
            return None;
        }
        match self.end_place_code() {
            Some(code) => Some(code),
            None => Some(8),
        }
    }

    /// One more node, where a tree is due for it.
    fn add_node(&mut self, node: CertNode) -> Result<(), AllocError>
        requires due { 0 < self.old.due }
        requires room { self.old.due ≤ self.old.count }
        requires few { self.old.count < 2 ^ 64 }
        ensures stated { IfOk result (λ _. held self.new ≡ record (held self.old) { nodes = self.old.nodes ++ node ∷ [] }) }
        ensures nodes { IfOk result (λ _. self.new.nodes ≡ self.old.nodes ++ node ∷ []) }
        ensures parts { IfOk result (λ _. (self.new.claim ≡ self.old.claim) × (self.new.point ≡ self.old.point) × (self.new.ray ≡ self.old.ray) × (self.new.cuts ≡ self.old.cuts) × (self.new.ended ≡ self.old.ended)) }
    {
        let due = due_behind(self.due, &node);
        let Ok(()) = self.nodes.push(node) else {
            return Err(AllocError);
        };
        self.due = due;
        Ok(())
    }

    /// One more line, which says this and has no code.
    pub(crate) fn note(&mut self, statement: Statement) -> Result<(), AllocError>
        requires clean { code_in (held self.old) (Ok statement) ≡ None }
        requires room { self.old.count + 1 < 2 ^ 64 }
        requires narrow { IsLawfulStatement statement }
        requires kept { IsReadable self.old }
        ensures stated { IfOk result (λ _. held self.new ≡ after (held self.old) (Ok statement)) }
        ensures kept { IfOk result (λ _. IsReadable self.new) }
    {
        self.count += 1;
        match statement {
            Statement::Claims(claim) => self.claim = Some(claim),
            Statement::Point(point) => self.point = Some(point),
            Statement::Node(node) => return self.add_node(node),
            Statement::End => self.ended = true,
            Statement::Ray(ray) => self.ray = Some(ray),
            Statement::Cut(cut) => return self.cuts.push(cut),
            Statement::Header | Statement::Foreign => {}
        }
        Ok(())
    }

    /// The certificate that the lines state, where they have no code and the text ends here.
    pub(crate) fn into_cert(self, alloc: Global) -> Cert
        requires ended { end_code (held self) ≡ None }
        requires kept { IsReadable self }
        ensures cert { result ≡ cert_of (held self) }
        ensures certificate { IsCertificate result }
    {
        self.parts(alloc)
    }

    /// The claim, the point, the ray, the cuts and the nodes, as far as they are there.
    fn parts(self, alloc: Global) -> Cert
        ensures { result ≡ cert_of (held self) }
    {
        let Reading {
            claim,
            point,
            ray,
            cuts,
            nodes,
            ..
        } = self;
        let claim = claim_or_infeasible(claim);
        let point = numbers_or_none(alloc, point);
        let ray = numbers_or_none(alloc, ray);
        Cert {
            claim,
            point,
            ray,
            cuts,
            nodes,
        }
    }
}
