// The values that a certificate states of a point, with the constants of the objectives.
ghost use Rattle.std.specs.Prelude.{◌≡◌, ◌⊎◌, ◌↔◌, IsTrue};
ghost use Rattle.frac128.specs.Rational.{int};
ghost use Rattle.lp_model.specs.Program.{HasWholeObjective};
ghost use Rattle.inner_models.specs.Inner.{bare_model};
ghost use Rattle.front_check.specs.private.Found.{IsTotalFound, IsValueFound};

use cert_check::Judgement;
use frac128::Frac;
use lp_model::{Model, Point, WideStep};
use model_points::value;

/// What a stated value is found to be.
#[derive(Clone, Copy, Drop)]
pub(crate) enum FoundValue {
    /// It is the point's, and this is it without the constant.
    Is(i128),
    /// It does not pass.
    Fails(Judgement),
}

/// Whether a number is this whole number.
fn is_integer(number: &Frac, whole: &i128) -> bool
    ensures { IsTrue result ↔ (number.now ≡ int whole.now) }
{
    let whole = *whole;
    number.is_whole() && number.numerator() == whole
}

/// What a stated value is found to be, where the value without the constant is this. The constant is added last.
fn judge_total(model: &Model, which: u8, less: &Frac, stated: &i128) -> FoundValue
    requires objective { (which ≡ 1) ⊎ (which ≡ 2) }
    requires whole { HasWholeObjective model.now which }
    ensures { IsTotalFound model.now which less.now stated.now result }
{
    let constant = model.sense().least_form(model.constant(which));
    match less.add(&constant) {
        Err(_) => FoundValue::Fails(Judgement::NoRoom(WideStep::Value { col: None })),
        Ok(total) => {
            less.has_room();
            if is_integer(&total, stated) {
                FoundValue::Is(less.numerator())
            } else {
                FoundValue::Fails(Judgement::Breaks(8))
            }
        }
    }
}

/// What a value is found to be that is stated of a point.
pub(crate) fn judge_stated(
    model: &Model,
    bare: &Model,
    which: u8,
    point: &Point,
    stated: &i128,
) -> FoundValue
    requires objective { (which ≡ 1) ⊎ (which ≡ 2) }
    requires whole { HasWholeObjective model.now which }
    requires bare { bare.now ≡ bare_model model.now }
    ensures { IsValueFound model.now which point.now stated.now result }
{
    match value(bare, which, point) {
        Err(step) => FoundValue::Fails(Judgement::NoRoom(step)),
        Ok(less) => judge_total(model, which, &less, stated),
    }
}
