// Derivations and cuts as words by the names of a model.
use frac128::Frac;
use lp_model::{ColId, CutRow, Derivation, Literal, Model, Side, Var};
use model_texts::push_variable;
use std::alloc::AllocError;

fn push_literal(text: &mut String, model: &Model, literal: &Literal) -> Result<(), AllocError> {
    text.push_str(if literal.plus { " " } else { " -" })?;
    push_variable(text, model, Var::Col(literal.col))
}

/// Writes a derivation, as `derivation_of` of `model_calls` reads it.
fn push_derivation(
    text: &mut String,
    model: &Model,
    derivation: &Derivation,
) -> Result<(), AllocError> {
    push_variable(text, model, Var::Row(derivation.row))?;
    text.push_str(match derivation.side {
        Side::Lo => " lo",
        Side::Hi => " hi",
    })?;
    for literal in derivation.literals.as_slice() {
        push_literal(text, model, literal)?;
    }
    Ok(())
}

/// Writes derivations, `, ` between them, and `none` where there is none.
pub fn push_derivations(
    text: &mut String,
    model: &Model,
    derivations: &[Derivation],
) -> Result<(), AllocError> {
    if derivations.is_empty() {
        return text.push_str("none");
    }
    for (place, derivation) in derivations.iter().enumerate() {
        if place > 0 {
            text.push_str(", ")?;
        }
        push_derivation(text, model, derivation)?;
    }
    Ok(())
}

/// What stands before the size of a term: the first one has no `+`.
fn sign_of(is_first: bool, number: &Frac) -> &str {
    match (is_first, number.is_negative()) {
        (true, true) => "-",
        (true, false) => "",
        (false, true) => " - ",
        (false, false) => " + ",
    }
}

/// Writes a term: `X`, `-X`, ` + X`, ` - 2 X`.
fn push_term(
    text: &mut String,
    model: &Model,
    is_first: bool,
    col: ColId,
    number: &Frac,
) -> Result<(), AllocError> {
    text.push_str(sign_of(is_first, number))?;
    let size = if number.is_negative() {
        number.neg()
    } else {
        *number
    };
    if size != Frac::whole(1) {
        write!(text, "{size} ")?;
    }
    push_variable(text, model, Var::Col(col))
}

/// Writes the row of a cut, and whether it counts: `X - Y <= 1 live`.
pub fn push_cut(text: &mut String, model: &Model, cut: &CutRow) -> Result<(), AllocError> {
    let terms = cut.terms.as_slice();
    if terms.is_empty() {
        text.push('0')?;
    }
    for (place, (col, number)) in terms.iter().enumerate() {
        push_term(text, model, place == 0, *col, number)?;
    }
    let state = if cut.live { "live" } else { "dead" };
    write!(text, " <= {} {state}", cut.hi)
}
