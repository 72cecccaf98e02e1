// The commands of a row: what they have said so far, and what they ask.
ghost use Rattle.std.specs.Prelude.{◌≡◌, []};
ghost use Rattle.row_tableau.specs.Relaxations.{HasFewCuts};

use crate::leaves::work_on;
use crate::rays::ray_of;
use crate::solving::{go_on, solve};
use crate::tables::{bring_in, exchange, push_entry};
use anyhow::{Result, bail, ensure};
use branch_tree::Job;
use dual_simplex::{Lp, slack_basis};
use frac128::Frac;
use lp_model::{Basis, List, Model, Mult, Point, Region, Sense};
use model_texts::{
    Words, apply_line, basis_of, empty_model, head_of, push_basis, push_multipliers, push_point,
    region_of,
};
use row_tableau::{Relax, RelaxKind, Tableau};
use row_texts::{Subject, number_of};
use std::alloc::Global;
use std::mem::replace;

/// A model, what its relaxation is taken of and begins at, a table of a basis, and what was solved last.
#[derive(Drop)]
pub struct Relaxations {
    alloc: Global,
    model: Model,
    region: Region,
    kind: RelaxKind,
    /// The list that a start is at, in place of the slack state.
    list: Option<Basis>,
    /// The value from which on a leaf is closed.
    target: Option<Frac>,
    table: Option<Tableau>,
    solved: Option<Lp>,
}

/// The number behind a command: how many moves are allowed.
fn limit_of(words: &mut Words) -> Result<u64> {
    let word = words.next("limit")?;
    words.end()?;
    match number_of(&word) {
        Some(limit) => Ok(limit),
        None => bail!("no limit: `{word}`"),
    }
}

/// The kind of a relaxation.
fn kind_of(words: &mut Words) -> Result<RelaxKind> {
    let word = words.next("kind")?;
    words.end()?;
    match word.as_str() {
        "plain" => Ok(RelaxKind::Plain),
        "zero" => Ok(RelaxKind::CostsZero),
        "directions" => Ok(RelaxKind::Directions),
        _ => bail!("no kind: `{word}`"),
    }
}

/// Writes a basis as a line.
fn push_named_basis(text: &mut String, model: &Model, basis: &Basis) -> Result<()> {
    text.push_str("basis")?;
    push_basis(text, model, basis)?;
    text.push('\n')?;
    Ok(())
}

/// Writes multipliers as a line.
fn push_named_multipliers(text: &mut String, model: &Model, word: &str, mult: &Mult) -> Result<()> {
    text.push_str(word)?;
    push_multipliers(text, model, mult)?;
    text.push('\n')?;
    Ok(())
}

/// Writes a point as a line.
fn push_named_point(text: &mut String, model: &Model, point: &Point) -> Result<()> {
    text.push_str("point")?;
    push_point(text, model, point)?;
    text.push('\n')?;
    Ok(())
}

/// The basis that was reached.
fn basis_in(lp: &Lp) -> &Basis {
    match lp {
        Lp::Optimal { basis, .. } => basis,
        Lp::Infeasible { basis, .. } => basis,
        Lp::Pivots { basis } => basis,
        Lp::Wide { basis, .. } => basis,
    }
}

/// Writes a list of what was found.
fn push_list(text: &mut String, model: &Model, word: &str, lp: &Lp) -> Result<()> {
    match (word, lp) {
        ("basis", _) => push_named_basis(text, model, basis_in(lp)),
        ("point", Lp::Optimal { point, .. }) => push_named_point(text, model, point),
        ("multipliers", Lp::Optimal { mult, .. }) => {
            push_named_multipliers(text, model, word, mult)
        }
        ("multipliers", Lp::Infeasible { mult, .. }) => {
            push_named_multipliers(text, model, word, mult)
        }
        ("farkas", Lp::Infeasible { farkas, .. }) => {
            push_named_multipliers(text, model, word, farkas)
        }
        _ => {
            writeln!(text, "no {word}")?;
            Ok(())
        }
    }
}

impl Relaxations {
    fn relax(&self) -> Relax<'_>
        ensures none { result.cuts.now ≡ [] }
        ensures few { HasFewCuts result }
    {
        Relax {
            model: &self.model,
            cuts: &[],
            region: self.region.as_slice(),
            kind: self.kind,
        }
    }

    /// The leaf to be worked.
    fn job(&self) -> Result<Job> {
        let basis = match &self.list {
            Some(list) => list.copy(self.alloc)?,
            None => Basis {
                basic: List::new(self.alloc),
                high: List::new(self.alloc),
            },
        };
        Ok(Job {
            id: 1,
            region: self.region.clone()?,
            mult: List::new(self.alloc),
            basis,
            target: self.target,
        })
    }

    /// Begins the model with its head.
    fn begin_model(&mut self, line: &str) -> Result<()> {
        ensure!(
            self.model.cols().is_empty() && self.model.rows().is_empty(),
            "a head below the model's lines"
        );
        if let Some(model) = head_of(self.alloc, line)? {
            drop(replace(&mut self.model, model));
        }
        Ok(())
    }

    /// Takes the changes that a relaxation is taken in.
    fn set_region(&mut self, words: &mut Words) -> Result<()> {
        let region = region_of(self.alloc, &self.model, words)?;
        drop(replace(&mut self.region, region));
        Ok(())
    }

    /// Takes the list that a start is at.
    fn set_list(&mut self, words: &mut Words) -> Result<()> {
        let list = basis_of(self.alloc, &self.model, words)?;
        drop(replace(&mut self.list, Some(list)));
        Ok(())
    }

    /// Begins the table.
    fn set_table(&mut self) -> Result<()> {
        let table = Tableau::slack_start(self.alloc, &self.relax())?;
        drop(replace(&mut self.table, Some(table)));
        Ok(())
    }

    /// Takes what a relaxation is taken of and begins at. False: the command says something else.
    fn set(&mut self, command: &str, words: &mut Words) -> Result<bool> {
        match command {
            "region" => self.set_region(words)?,
            "relax" => self.kind = kind_of(words)?,
            "from" => self.set_list(words)?,
            "target" => self.target = Some(words.number()?),
            "table" => self.set_table()?,
            _ => return Ok(false),
        }
        Ok(true)
    }

    /// Solves, and keeps what was found.
    fn solve(&mut self, limit: u64, replies: &mut String) -> Result<()> {
        let solved = solve(self.alloc, &self.relax(), &self.list, limit, replies)?;
        drop(replace(&mut self.solved, solved));
        Ok(())
    }

    /// Works the leaf.
    fn work(&self, limit: u64, replies: &mut String) -> Result<()> {
        let job = self.job()?;
        let worked = work_on(self.alloc, &self.model, &job, limit, replies);
        drop(job);
        worked
    }

    /// Moves as the command says.
    fn go_on(&self, command: &str, limit: u64, replies: &mut String) -> Result<()> {
        go_on(
            self.alloc,
            &self.relax(),
            &self.list,
            command,
            limit,
            replies,
        )
    }

    /// Looks for what the command says.
    fn look(&mut self, command: &str, limit: u64, replies: &mut String) -> Result<()> {
        match command {
            "solve" => self.solve(limit, replies),
            "ray" => ray_of(self.alloc, &self.model, limit, replies),
            _ => self.work(limit, replies),
        }
    }

    /// Asks something with a limit of moves. False: the command is none of these.
    fn run(&mut self, command: &str, words: &mut Words, replies: &mut String) -> Result<bool> {
        match command {
            "walk" | "steps" | "numbers" => self.go_on(command, limit_of(words)?, replies)?,
            "solve" | "ray" | "work" => self.look(command, limit_of(words)?, replies)?,
            _ => return Ok(false),
        }
        Ok(true)
    }

    /// Writes the slack basis of the model.
    fn push_slack(&self, replies: &mut String) -> Result<()> {
        match slack_basis(self.alloc, &self.model)? {
            Some(basis) => push_named_basis(replies, &self.model, &basis),
            None => {
                replies.push_str("no slack basis\n")?;
                Ok(())
            }
        }
    }

    /// Writes a list of what was solved last. False: the command asks for none.
    fn push_solved(&self, command: &str, replies: &mut String) -> Result<bool> {
        match command {
            "slack" => self.push_slack(replies)?,
            "point" | "multipliers" | "farkas" | "basis" => {
                let Some(lp) = &self.solved else {
                    bail!("nothing was solved");
                };
                push_list(replies, &self.model, command, lp)?;
            }
            _ => return Ok(false),
        }
        Ok(true)
    }

    /// Asks something of the table by a list of variables.
    fn ask_by(&mut self, command: &str, list: &Basis, replies: &mut String) -> Result<()> {
        let Some(table) = &mut self.table else {
            bail!("no `table` above `{command}`");
        };
        match (command, list.basic.as_slice()) {
            ("bring", _) => bring_in(replies, &self.model, table, list),
            ("exchange", [basic, other]) => exchange(replies, &self.model, table, *basic, *other),
            ("entry", [basic, other]) => push_entry(replies, table, *basic, *other),
            _ => bail!("no two variables behind `{command}`"),
        }
    }

    /// Asks something of the table.
    fn ask_table(&mut self, command: &str, words: &mut Words, replies: &mut String) -> Result<()> {
        let list = basis_of(self.alloc, &self.model, words)?;
        let asked = self.ask_by(command, &list, replies);
        drop(list);
        asked
    }
}

impl Subject for Relaxations {
    fn new(alloc: Global) -> Result<Self> {
        let model = empty_model(alloc, Sense::Min, Frac::whole(0), Frac::whole(0))?;
        Ok(Relaxations {
            alloc,
            model,
            region: List::new(alloc),
            kind: RelaxKind::Plain,
            list: None,
            target: None,
            table: None,
            solved: None,
        })
    }

    fn answer(&mut self, line: &str, replies: &mut String) -> Result<()> {
        let mut words = Words::new(self.alloc, line)?;
        let command = words.next("command")?;
        if self.set(&command, &mut words)? {
            return words.end();
        }
        if self.run(&command, &mut words, replies)? {
            return Ok(());
        }
        if self.push_solved(&command, replies)? {
            return words.end();
        }
        match command.as_str() {
            "bring" | "exchange" | "entry" => self.ask_table(&command, &mut words, replies),
            "min" | "max" => self.begin_model(line),
            _ => apply_line(self.alloc, &mut self.model, line),
        }
    }
}
