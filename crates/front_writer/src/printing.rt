// The text of a front's certificate.
ghost use Rattle.std.specs.Prelude.{◌≡◌, ◌++◌, ◌∷◌, [], IfOk, All};
ghost use Rattle.cert_writer.specs.CertText.{line_text, lines_text};
ghost use Rattle.front_text.specs.declared.front.TreeOf.TheVariants.{Gap};
ghost use Rattle.front_text.specs.Text.{MeantFront};
ghost use Rattle.front_text.specs.Whole.{IsFrontCertificate};
ghost use Rattle.front_writer.specs.FrontWords.{outcome_words, outcome_lines, tree_words, tree_lines, lines_of_trees, printed_front, HasFrontWords};
ghost use Rattle.front_writer.specs.private.FrontRoom.{HasGapRoom, HasOutcomeRoom, HasTreeRoom, HasFrontRoom};

use cert_writer::{put_cuts, put_named_line, put_nodes, put_word};
use front_text::{FrontCert, FrontOutcome, FrontTree, TreeOf};
use itoa::Buffer;
use std::alloc::{AllocError, Global};

/// A line of an outcome's values, without its newline.
fn put_values(text: &mut Vec<u8>, v1: &i128, v2: &i128) -> Result<(), AllocError>
    ensures { IfOk result (λ _. text.new.items ≡ text.old.items ++ line_text (outcome_words v1.now v2.now)) }
{
    let mut first = Buffer::new();
    let mut second = Buffer::new();
    let Ok(()) = text.extend_from_slice(b"outcome") else {
        return Err(AllocError);
    };
    let Ok(()) = put_word(text, first.format(*v1).as_bytes()) else {
        return Err(AllocError);
    };
    put_word(text, second.format(*v2).as_bytes())
}

/// The line of an outcome's values and that of its point.
fn put_outcome(text: &mut Vec<u8>, outcome: &FrontOutcome) -> Result<(), AllocError>
    ensures text { IfOk result (λ _. text.new.items ≡ text.old.items ++ lines_text (outcome_lines (outcome.now ∷ []))) }
    ensures room { IfOk result (λ _. HasOutcomeRoom outcome.now) }
{
    let Ok(()) = put_values(text, &outcome.v1, &outcome.v2) else {
        return Err(AllocError);
    };
    let Ok(()) = text.push(b'\n') else {
        return Err(AllocError);
    };
    put_named_line(text, b"point", outcome.point.as_slice())
}

/// The lines of all outcomes.
fn put_outcomes(text: &mut Vec<u8>, outcomes: &[FrontOutcome]) -> Result<(), AllocError>
    ensures text { IfOk result (λ _. text.new.items ≡ text.old.items ++ lines_text (outcome_lines outcomes.now)) }
    ensures room { IfOk result (λ _. All HasOutcomeRoom outcomes.now) }
{
    for outcome in outcomes {
        let Ok(()) = put_outcome(text, outcome) else {
            return Err(AllocError);
        };
    }
    Ok(())
}

/// The line of a gap's tree, without its newline.
fn put_gap(text: &mut Vec<u8>, number: u64) -> Result<(), AllocError>
    ensures text { IfOk result (λ _. text.new.items ≡ text.old.items ++ line_text (tree_words (Gap number))) }
    ensures room { HasGapRoom (Gap number) }
{
    let mut buffer = Buffer::new();
    let Ok(()) = text.extend_from_slice(b"tree gap") else {
        return Err(AllocError);
    };
    put_word(text, buffer.format(number).as_bytes())
}

/// The line that says of which inner model a tree is, without its newline.
fn put_tree_of(text: &mut Vec<u8>, of: TreeOf) -> Result<(), AllocError>
    ensures text { IfOk result (λ _. text.new.items ≡ text.old.items ++ line_text (tree_words of)) }
    ensures room { IfOk result (λ _. HasGapRoom of) }
{
    match of {
        TreeOf::Least1 => text.extend_from_slice(b"tree least1"),
        TreeOf::Least2 => text.extend_from_slice(b"tree least2"),
        TreeOf::Gap(number) => put_gap(text, number),
    }
}

/// The lines of a tree.
fn put_tree(text: &mut Vec<u8>, tree: &FrontTree) -> Result<(), AllocError>
    ensures text { IfOk result (λ _. text.new.items ≡ text.old.items ++ lines_text (tree_lines tree.now)) }
    ensures room { IfOk result (λ _. HasTreeRoom tree.now) }
{
    let Ok(()) = put_tree_of(text, tree.of) else {
        return Err(AllocError);
    };
    let Ok(()) = text.push(b'\n') else {
        return Err(AllocError);
    };
    let Ok(()) = put_cuts(text, tree.cuts.as_slice()) else {
        return Err(AllocError);
    };
    put_nodes(text, tree.nodes.as_slice())
}

/// The lines of all trees.
fn put_trees(text: &mut Vec<u8>, trees: &[FrontTree]) -> Result<(), AllocError>
    ensures text { IfOk result (λ _. text.new.items ≡ text.old.items ++ lines_text (lines_of_trees trees.now)) }
    ensures room { IfOk result (λ _. All HasTreeRoom trees.now) }
{
    for tree in trees {
        let Ok(()) = put_tree(text, tree) else {
            return Err(AllocError);
        };
    }
    Ok(())
}

/// The lines of a front's certificate, in a text that is empty.
fn put_front(text: &mut Vec<u8>, cert: &FrontCert) -> Result<(), AllocError>
    requires { text.old.items ≡ [] }
    ensures text { IfOk result (λ _. text.new.items ≡ printed_front cert.now) }
    ensures room { IfOk result (λ _. HasFrontRoom cert.now) }
{
    let Ok(()) = text.extend_from_slice(b"front 1\n") else {
        return Err(AllocError);
    };
    let Ok(()) = put_outcomes(text, cert.outcomes.as_slice()) else {
        return Err(AllocError);
    };
    let Ok(()) = put_trees(text, cert.trees.as_slice()) else {
        return Err(AllocError);
    };
    text.extend_from_slice(b"end\n")
}

/// The text of a front's certificate. Where the certificate has an outcome, its trees are whole and its names are words, the text
/// states it, so that `read_any` reads it back.
pub fn print_front(alloc: Global, cert: &FrontCert) -> Result<Vec<u8>, AllocError>
    ensures text { IfOk result (λ text. text.items ≡ printed_front cert.now) }
    ensures states { IfOk result (λ text. IsFrontCertificate cert.now → HasFrontWords cert.now → MeantFront text.items cert.now) }
{
    let mut text = Vec::new(alloc);
    let Ok(()) = put_front(&mut text, cert) else {
        drop(text);
        return Err(AllocError);
    };
    Ok(text)
}
