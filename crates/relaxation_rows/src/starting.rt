// The state that a relaxation begins at.
ghost use Rattle.std.specs.Prelude.{◌≡◌, []};
ghost use Rattle.lp_model.specs.Regions.{AreNarrow};
ghost use Rattle.table_entries.specs.Relaxation.{HasNoCrossedSides};
ghost use Rattle.row_tableau.specs.Relaxations.{relaxation_of};
ghost use Rattle.row_tableau.specs.declared.relax.RelaxKind.TheVariants.{Plain};
ghost use Rattle.row_tableau.specs.Tilts.{KeepsFree};

use crate::firsts::first_basis;
use crate::regions::is_lawful_region;
use crate::steps::push_step;
use anyhow::{Result, bail, ensure};
use dual_simplex::{LpState, StartFault};
use lp_model::Basis;
use row_tableau::{Relax, RelaxKind};
use std::alloc::Global;

/// The slack state, or the line `no state`.
fn slack<'a>(alloc: Global, relax: &Relax<'a>, text: &mut String) -> Result<Option<LpState<'a>>>
    requires none { relax.now.cuts.now ≡ [] }
    requires narrow { AreNarrow relax.now.region.now }
    requires free { KeepsFree relax.now.model.now relax.now.region.now }
    requires ordered { HasNoCrossedSides (relaxation_of relax.now) }
{
    match LpState::slack(alloc, relax)? {
        Some(state) => Ok(Some(state)),
        None => {
            text.push_str("no state\n")?;
            Ok(None)
        }
    }
}

/// The state of a plain relaxation at a list, or at a first basis of the model where the list is not lawful; or a line that says
/// why there is none.
fn at_list<'a>(
    alloc: Global,
    relax: &Relax<'a>,
    list: &Basis,
    text: &mut String,
) -> Result<Option<LpState<'a>>>
    requires plain { relax.now.kind ≡ Plain }
    requires none { relax.now.cuts.now ≡ [] }
    requires narrow { AreNarrow relax.now.region.now }
    requires free { KeepsFree relax.now.model.now relax.now.region.now }
    requires ordered { HasNoCrossedSides (relaxation_of relax.now) }
{
    let Some(first) = first_basis(alloc, relax.model)? else {
        text.push_str("no first basis\n")?;
        return Ok(None);
    };
    let started = LpState::start(alloc, relax, list, &first);
    drop(first);
    match started {
        Ok(state) => Ok(Some(state)),
        Err(StartFault::Wide { step, .. }) => {
            push_step(text, relax.model, step)?;
            Ok(None)
        }
        Err(StartFault::Memory) => bail!("no memory"),
    }
}

/// The state that a relaxation begins at: that of the list where one is given, else the slack state. None: the text says why.
pub fn begin<'a>(
    alloc: Global,
    relax: &Relax<'a>,
    list: &Option<Basis>,
    text: &mut String,
) -> Result<Option<LpState<'a>>>
    requires { relax.now.cuts.now ≡ [] }
{
    ensure!(
        is_lawful_region(relax.model, relax.region),
        "a region of a column that is not integer"
    );
    if !relax.is_ordered() {
        text.push_str("empty region\n")?;
        return Ok(None);
    }
    match list {
        None => slack(alloc, relax, text),
        Some(list) => {
            ensure!(
                matches!(relax.kind, RelaxKind::Plain),
                "a list beside a kind that is not plain"
            );
            at_list(alloc, relax, list, text)
        }
    }
}
