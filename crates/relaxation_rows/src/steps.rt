// Steps of arithmetic without room, as text.
use lp_model::{Model, WideStep};
use model_texts::push_wide_step;
use std::alloc::AllocError;

/// The place of a step, as a line.
pub fn push_step(text: &mut String, model: &Model, step: WideStep) -> Result<(), AllocError> {
    text.push_str("wide ")?;
    push_wide_step(text, model, step)?;
    text.push('\n')
}
