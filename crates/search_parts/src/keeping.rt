// Points that may be kept, each with its value.
ghost use Rattle.std.specs.Prelude.{IfOk, OnOk};
ghost use Rattle.search_parts.specs.EditedPoints.{AreValued};
ghost use Rattle.search_parts.specs.private.EditedPoints.{AddsKeepable};

use crate::checks::keepable_value;
use frac128::Frac;
use lp_model::{List, Model, Point};
use std::alloc::{AllocError, Global};

/// Points that may be kept, with their values in least form.
#[derive(Drop)]
pub struct KeptPoints {
    pub points: Vec<Point>,
    pub values: Vec<Frac>,
}

impl KeptPoints {
    /// Adds a point, if it may be kept.
    pub(crate) fn add(&mut self, model: &Model, point: Point) -> Result<(), AllocError>
        ensures { OnOk result (AddsKeepable model.now point self.old.points.items self.old.values.items self.new.points.items self.new.values.items) }
    {
        let Some(value) = keepable_value(model, &point) else {
            drop(point);
            return Ok(());
        };
        match self.points.push(point) {
            Ok(()) => {}
            Err(failed) => return Err(failed.into()),
        }
        match self.values.push(value) {
            Ok(()) => Ok(()),
            Err(failed) => Err(failed.into()),
        }
    }
}

/// Copies of the points that may be kept, with their values in least form.
pub fn keepable_points(
    alloc: Global,
    model: &Model,
    points: &[Point],
) -> Result<KeptPoints, AllocError>
    ensures { IfOk result (λ k. AreValued model.now points.now k.points.items k.values.items) }
{
    let mut kept = KeptPoints {
        points: Vec::new(alloc),
        values: Vec::new(alloc),
    };
    for point in points {
        let copy = match List::from_slice(alloc, point.as_slice()) {
            Ok(copy) => copy,
            Err(error) => return Err(error),
        };
        match kept.add(model, copy) {
            Ok(()) => {}
            Err(error) => return Err(error),
        }
    }
    Ok(kept)
}
