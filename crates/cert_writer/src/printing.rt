// The text of a certificate.
ghost use Rattle.std.specs.Prelude.{◌≡◌, ◌<◌, ◌^◌, ◌++◌, ◌∷◌, [], map, codes, IfOk, OnOk, All};
ghost use Rattle.std.specs.Fmt.{decimal, signed_decimal};
ghost use Rattle.frac128.specs.Range.{Fits};
ghost use Rattle.frac128.specs.Printing.{printed};
ghost use Rattle.cert_text.specs.Text.{MeantCertificate};
ghost use Rattle.cert_text.specs.Whole.{IsCertificate};
ghost use Rattle.cert_text.specs.declared.cert.Claim.TheVariants.{Within};
ghost use Rattle.cert_writer.specs.CertText.{named_words, mult_words, all_mult_words, sign_of, literal_word, literal_words, side_word, cut_words, claim_words, node_words, point_lines, ray_lines, line_text, lines_text, cert_text, HasCertWords};
ghost use Rattle.text_lines.specs.Words.{spaced};
ghost use Rattle.cert_writer.specs.Room.{HasFractions, MultFits, HasNodeRoom, HasClaimRoom, HasPointRoom, HasRayRoom, HasCertRoom};

use cert_text::{Cert, CertMult, CertNode, Claim, NamedCut};
use frac128::Frac;
use itoa::Buffer;
use lp_model::{Name, Side};
use std::alloc::{AllocError, Global};

/// One more word of a line behind a text.
pub fn put_word(text: &mut Vec<u8>, word: &[u8]) -> Result<(), AllocError>
    ensures { IfOk result (λ _. text.new.items ≡ text.old.items ++ spaced (word.now ∷ [])) }
{
    text.push(b' ')?;
    text.extend_from_slice(word)
}

/// A number as one more word.
fn put_number(text: &mut Vec<u8>, number: &Frac) -> Result<(), AllocError>
    ensures text { IfOk result (λ _. text.new.items ≡ text.old.items ++ spaced (printed number.now ∷ [])) }
    ensures room { Fits number.now }
{
    number.has_room();
    text.push(b' ')?;
    number.write_to(text)
}

/// A name and a number.
fn put_pair(text: &mut Vec<u8>, name: &Name, number: &Frac) -> Result<(), AllocError>
    ensures text { IfOk result (λ _. text.new.items ≡ text.old.items ++ spaced (name.now ∷ printed number.now ∷ [])) }
    ensures room { IfOk result (λ _. Fits number.now) }
{
    let Ok(()) = put_word(text, name.as_slice()) else {
        return Err(AllocError);
    };
    put_number(text, number)
}

/// `NAME V` for each.
fn put_named(text: &mut Vec<u8>, named: &[(Name, Frac)]) -> Result<(), AllocError>
    ensures text { IfOk result (λ _. text.new.items ≡ text.old.items ++ spaced (named_words named.now)) }
    ensures room { IfOk result (λ _. HasFractions named.now) }
{
    for (name, number) in named {
        let Ok(()) = put_pair(text, name, number) else {
            return Err(AllocError);
        };
    }
    Ok(())
}

/// `row NAME V`.
fn put_row(text: &mut Vec<u8>, name: &Name, number: &Frac) -> Result<(), AllocError>
    ensures text { IfOk result (λ _. text.new.items ≡ text.old.items ++ spaced (codes "row" ∷ name.now ∷ printed number.now ∷ [])) }
    ensures room { IfOk result (λ _. Fits number.now) }
{
    let Ok(()) = put_word(text, b"row") else {
        return Err(AllocError);
    };
    put_pair(text, name, number)
}

/// `cut K V`.
fn put_cut(text: &mut Vec<u8>, cut: u64, number: &Frac) -> Result<(), AllocError>
    ensures text { IfOk result (λ _. text.new.items ≡ text.old.items ++ spaced (codes "cut" ∷ decimal cut ∷ printed number.now ∷ [])) }
    ensures room { IfOk result (λ _. Fits number.now × (cut < 2 ^ 64)) }
{
    let mut buffer = Buffer::new();
    let Ok(()) = put_word(text, b"cut") else {
        return Err(AllocError);
    };
    let Ok(()) = put_word(text, buffer.format(cut).as_bytes()) else {
        return Err(AllocError);
    };
    put_number(text, number)
}

/// A multiplier.
fn put_mult(text: &mut Vec<u8>, mult: &CertMult) -> Result<(), AllocError>
    ensures text { IfOk result (λ _. text.new.items ≡ text.old.items ++ spaced (mult_words mult.now)) }
    ensures room { IfOk result (λ _. MultFits mult.now) }
{
    match mult {
        CertMult::Row(name, number) => put_row(text, name, number),
        CertMult::Cut(cut, number) => put_cut(text, *cut, number),
    }
}

/// `row NAME V` and `cut K V` for each.
fn put_mults(text: &mut Vec<u8>, mults: &[CertMult]) -> Result<(), AllocError>
    ensures text { IfOk result (λ _. text.new.items ≡ text.old.items ++ spaced (all_mult_words mults.now)) }
    ensures room { IfOk result (λ _. All MultFits mults.now) }
{
    for mult in mults {
        let Ok(()) = put_mult(text, mult) else {
            return Err(AllocError);
        };
    }
    Ok(())
}

fn sign_word(plus: bool) -> &'static [u8]
    ensures { result.now ≡ sign_of plus ∷ [] }
{
    if plus { b"+" } else { b"-" }
}

/// `+NAME` or `-NAME` as one more word.
fn put_literal(text: &mut Vec<u8>, name: &Name, plus: bool) -> Result<(), AllocError>
    ensures { IfOk result (λ _. text.new.items ≡ text.old.items ++ spaced (literal_word (name.now, plus) ∷ [])) }
{
    let Ok(()) = put_word(text, sign_word(plus)) else {
        return Err(AllocError);
    };
    text.extend_from_slice(name.as_slice())
}

/// `+NAME` or `-NAME` for each.
fn put_literals(text: &mut Vec<u8>, literals: &[(Name, bool)]) -> Result<(), AllocError>
    ensures { IfOk result (λ _. text.new.items ≡ text.old.items ++ spaced (literal_words literals.now)) }
{
    for (name, plus) in literals {
        let Ok(()) = put_literal(text, name, *plus) else {
            return Err(AllocError);
        };
    }
    Ok(())
}

fn side_word(side: Side) -> &'static [u8]
    ensures { result.now ≡ side_word side }
{
    match side {
        Side::Lo => b"lo",
        Side::Hi => b"hi",
    }
}

/// A cut's line.
fn put_cut_line(text: &mut Vec<u8>, cut: &NamedCut) -> Result<(), AllocError>
    ensures { IfOk result (λ _. text.new.items ≡ text.old.items ++ line_text (cut_words cut.now)) }
{
    let Ok(()) = text.extend_from_slice(b"cut") else {
        return Err(AllocError);
    };
    let Ok(()) = put_word(text, cut.row.as_slice()) else {
        return Err(AllocError);
    };
    let Ok(()) = put_word(text, side_word(cut.side)) else {
        return Err(AllocError);
    };
    put_literals(text, cut.literals.as_slice())
}

/// The lines of cuts behind a text.
pub fn put_cuts(text: &mut Vec<u8>, cuts: &[NamedCut]) -> Result<(), AllocError>
    ensures { IfOk result (λ _. text.new.items ≡ text.old.items ++ lines_text (map cut_words cuts.now)) }
{
    for cut in cuts {
        let Ok(()) = put_cut_line(text, cut) else {
            return Err(AllocError);
        };
        let Ok(()) = text.push(b'\n') else {
            return Err(AllocError);
        };
    }
    Ok(())
}

/// The line of a value that is claimed with a gap.
fn put_within(text: &mut Vec<u8>, gap: &Frac, value: &Frac) -> Result<(), AllocError>
    ensures text { IfOk result (λ _. text.new.items ≡ text.old.items ++ line_text (claim_words (Within gap.now value.now))) }
    ensures room { IfOk result (λ _. HasClaimRoom (Within gap.now value.now)) }
{
    let Ok(()) = text.extend_from_slice(b"claim within") else {
        return Err(AllocError);
    };
    let Ok(()) = put_number(text, gap) else {
        return Err(AllocError);
    };
    put_number(text, value)
}

/// The claim's line.
fn put_claim(text: &mut Vec<u8>, claim: &Claim) -> Result<(), AllocError>
    ensures text { IfOk result (λ _. text.new.items ≡ text.old.items ++ line_text (claim_words claim.now)) }
    ensures room { IfOk result (λ _. HasClaimRoom claim.now) }
{
    match claim {
        Claim::Optimal(value) => match text.extend_from_slice(b"claim optimal") {
            Ok(()) => put_number(text, value),
            Err(error) => Err(error),
        },
        Claim::Within { gap, value } => put_within(text, gap, value),
        Claim::Infeasible => text.extend_from_slice(b"claim infeasible"),
        Claim::Unbounded => text.extend_from_slice(b"claim unbounded"),
    }
}

/// A split's line.
fn put_split(text: &mut Vec<u8>, col: &Name, v: i128) -> Result<(), AllocError>
    ensures { IfOk result (λ _. text.new.items ≡ text.old.items ++ line_text (codes "split" ∷ col.now ∷ signed_decimal v ∷ [])) }
{
    let mut buffer = Buffer::new();
    let Ok(()) = text.extend_from_slice(b"split") else {
        return Err(AllocError);
    };
    let Ok(()) = put_word(text, col.as_slice()) else {
        return Err(AllocError);
    };
    put_word(text, buffer.format(v).as_bytes())
}

/// A node's line.
fn put_node(text: &mut Vec<u8>, node: &CertNode) -> Result<(), AllocError>
    ensures text { IfOk result (λ _. text.new.items ≡ text.old.items ++ line_text (node_words node.now)) }
    ensures room { IfOk result (λ _. HasNodeRoom node.now) }
{
    match node {
        CertNode::Split { col, v } => put_split(text, col, *v),
        CertNode::Bound(mults) => match text.extend_from_slice(b"leaf bound") {
            Ok(()) => put_mults(text, mults.as_slice()),
            Err(error) => Err(error),
        },
        CertNode::Farkas(mults) => match text.extend_from_slice(b"leaf farkas") {
            Ok(()) => put_mults(text, mults.as_slice()),
            Err(error) => Err(error),
        },
        CertNode::Empty => text.extend_from_slice(b"leaf empty"),
    }
}

/// The lines of nodes behind a text. Their numbers have room.
pub fn put_nodes(text: &mut Vec<u8>, nodes: &[CertNode]) -> Result<(), AllocError>
    ensures text { IfOk result (λ _. text.new.items ≡ text.old.items ++ lines_text (map node_words nodes.now)) }
    ensures room { IfOk result (λ _. All HasNodeRoom nodes.now) }
{
    for node in nodes {
        let Ok(()) = put_node(text, node) else {
            return Err(AllocError);
        };
        let Ok(()) = text.push(b'\n') else {
            return Err(AllocError);
        };
    }
    Ok(())
}

/// A line of a word, and of names and numbers, behind a text. The numbers have room.
pub fn put_named_line(
    text: &mut Vec<u8>,
    word: &[u8],
    named: &[(Name, Frac)],
) -> Result<(), AllocError>
    ensures text { IfOk result (λ _. text.new.items ≡ text.old.items ++ lines_text ((word.now ∷ named_words named.now) ∷ [])) }
    ensures room { IfOk result (λ _. HasFractions named.now) }
{
    let Ok(()) = text.extend_from_slice(word) else {
        return Err(AllocError);
    };
    let Ok(()) = put_named(text, named) else {
        return Err(AllocError);
    };
    text.extend_from_slice(b"\n")
}

/// The point's line, where the claim has one.
fn put_point(text: &mut Vec<u8>, cert: &Cert) -> Result<(), AllocError>
    ensures text { IfOk result (λ _. text.new.items ≡ text.old.items ++ lines_text (point_lines cert.now.claim cert.now.point)) }
    ensures room { IfOk result (λ _. HasPointRoom cert.now.claim cert.now.point) }
{
    match cert.claim {
        Claim::Infeasible => Ok(()),
        Claim::Optimal(_) => put_named_line(text, b"point", cert.point.as_slice()),
        Claim::Within { .. } => put_named_line(text, b"point", cert.point.as_slice()),
        Claim::Unbounded => put_named_line(text, b"point", cert.point.as_slice()),
    }
}

/// The ray's line, where the claim has one.
fn put_ray(text: &mut Vec<u8>, cert: &Cert) -> Result<(), AllocError>
    ensures text { IfOk result (λ _. text.new.items ≡ text.old.items ++ lines_text (ray_lines cert.now.claim cert.now.ray)) }
    ensures room { IfOk result (λ _. HasRayRoom cert.now.claim cert.now.ray) }
{
    match cert.claim {
        Claim::Optimal(_) => Ok(()),
        Claim::Within { .. } => Ok(()),
        Claim::Infeasible => Ok(()),
        Claim::Unbounded => put_named_line(text, b"ray", cert.ray.as_slice()),
    }
}

/// The lines of a certificate, in a text that is empty.
fn put_cert(text: &mut Vec<u8>, cert: &Cert) -> Result<(), AllocError>
    requires { text.old.items ≡ [] }
    ensures text { IfOk result (λ _. text.new.items ≡ cert_text cert.now) }
    ensures room { IfOk result (λ _. HasCertRoom cert.now) }
{
    let Ok(()) = text.extend_from_slice(b"cert 1\n") else {
        return Err(AllocError);
    };
    let Ok(()) = put_claim(text, &cert.claim) else {
        return Err(AllocError);
    };
    let Ok(()) = text.push(b'\n') else {
        return Err(AllocError);
    };
    let Ok(()) = put_point(text, cert) else {
        return Err(AllocError);
    };
    let Ok(()) = put_ray(text, cert) else {
        return Err(AllocError);
    };
    let Ok(()) = put_cuts(text, cert.cuts.as_slice()) else {
        return Err(AllocError);
    };
    let Ok(()) = put_nodes(text, cert.nodes.as_slice()) else {
        return Err(AllocError);
    };
    text.extend_from_slice(b"end\n")
}

/// The text of a certificate. Where the certificate has the parts of its claim, and its names are words, the text states it,
/// so that `read_cert` reads it back.
pub fn print_cert(alloc: Global, cert: &Cert) -> Result<Vec<u8>, AllocError>
    ensures text { IfOk result (λ text. text.items ≡ cert_text cert.now) }
    ensures states { IfOk result (λ text. IsCertificate cert.now → HasCertWords cert.now → MeantCertificate text.items cert.now) }
{
    let mut text = Vec::new(alloc);
    let Ok(()) = put_cert(&mut text, cert) else {
        drop(text);
        return Err(AllocError);
    };
    Ok(text)
}
