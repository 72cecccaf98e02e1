// The numbers of a model have room, as each `Frac` has.
ghost use Rattle.std.specs.Prelude.{All};
ghost use Rattle.std.specs.Option.{ForSome};
ghost use Rattle.frac128.specs.Range.{Fits};
ghost use Rattle.lp_model.specs.Lawful.{IsLawful};
ghost use Rattle.lp_model.specs.Fitting.{SidesFit, ColumnNumbersFit, ModelFits};

use crate::model::Model;
use crate::types::{Col, Point, Row, RowId, Var};
use frac128::Frac;

/// What has numbers. Nothing is done where the program runs.
pub trait Numbers {
    ghost fits: { Self → Type 0 };

    /// Each of its numbers has room.
    fn show(&self)
        ensures { fits self.now };
}

impl Numbers for Frac {
    ghost fits = { Fits };

    fn show(&self) {
        self.has_room();
    }
}

/// A side or a bound.
fn show_side(side: &Option<Frac>)
    ensures { ForSome side.now Fits }
{
    if let Some(x) = side {
        x.has_room();
    }
}

/// The numbers of each of a list have room. Nothing is done where the program runs.
pub fn show_all<T: Numbers>(items: &[T])
    ensures { All T.fits items.now }
{
    for item in items {
        item.show();
    }
}

impl Numbers for Row {
    ghost fits = { SidesFit };

    fn show(&self) {
        show_side(&self.lo);
        show_side(&self.hi);
    }
}

impl Numbers for (RowId, Frac) {
    ghost fits = { λ e. Fits e.1 };

    fn show(&self) {
        self.1.has_room();
    }
}

impl Numbers for (Var, Frac) {
    ghost fits = { λ e. Fits e.1 };

    fn show(&self) {
        self.1.has_room();
    }
}

impl Numbers for Col {
    ghost fits = { ColumnNumbersFit };

    fn show(&self) {
        show_side(&self.lo);
        show_side(&self.up);
        self.cost.has_room();
        self.cost2.has_room();
        show_all(self.rows.as_slice());
    }
}

impl Numbers for Point {
    ghost fits = { All Fits };

    fn show(&self) {
        show_all(self.as_slice());
    }
}

/// The numbers of a model have room, and it is lawful. Nothing is done where the program runs.
pub fn show_model(model: &Model)
    ensures room { ModelFits model.now }
    ensures lawful { IsLawful model.now }
{
    model.constant(1).has_room();
    model.constant(2).has_room();
    show_all(model.rows());
    show_all(model.cols());
}
