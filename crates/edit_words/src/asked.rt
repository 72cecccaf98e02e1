// The ten edits, as words say them.
ghost use Rattle.std.specs.Prelude.{◌≡◌, ◌∷◌, [], map, Some};
ghost use Rattle.lp_model.specs.declared.types.Edit.TheVariants.{AddCol};
ghost use Rattle.edit_words.specs.EditWords.{Edits, entries_of, with_entries, is_int_word, sides_edit, cost_asks, cost2_asks, row_asks, bounds_asks, kind_asks, addcol_asks, delcol_asks, delrow_asks, whole_row_edit, whole_row_asks, meaning, formed_asks, edit_asks, IsAskedOf};

use crate::entries::{Entries, entries_in};
use crate::forms::fits;
use crate::kinds::EditKind;
use crate::numbers::{lower_in, number_in, side_in, upper_in};
use frac128::Frac;
use lp_model::{Bound, Edit, List, Name};
use std::alloc::{AllocError, Global};
use text_lines::is_word;

/// What the words behind `edit` ask for.
#[derive(Drop)]
pub enum EditAsked<'a> {
    /// This edit.
    Edits(Edit),
    /// The words have none of the forms.
    Misused,
    /// This word, in a number's place, is none there.
    NoNumber { word: &'a [u8] },
    /// There is no memory for the edit.
    Memory,
}

/// Where a row goes.
#[derive(Clone, Copy)]
enum RowPlace {
    /// Behind the others.
    Last,
    /// In the place of the row of its name.
    Same,
}

fn is_int_word(word: &[u8]) -> bool
    ensures { result ≡ is_int_word word.now }
{
    is_word(b"int", word)
}

/// The edit of a row's sides.
fn sides_edit(row: Name, which: &[u8], side: &Bound) -> Edit
    ensures { result ≡ sides_edit row which.now side.now }
{
    if is_word(b"lo", which) {
        Edit::SetRow {
            row,
            lo: Some(*side),
            hi: None,
        }
    } else if is_word(b"hi", which) {
        Edit::SetRow {
            row,
            lo: None,
            hi: Some(*side),
        }
    } else {
        Edit::SetRow {
            row,
            lo: Some(*side),
            hi: Some(*side),
        }
    }
}

// ---- by the words of each kind

/// Another cost in the first objective.
fn cost_edit<'a>(alloc: Global, col: &[u8], word: &'a [u8]) -> EditAsked<'a>
    ensures { IsAskedOf (cost_asks (col.now ∷ word.now ∷ [])) result }
{
    let Some(v) = number_in(word) else {
        return EditAsked::NoNumber { word };
    };
    match Name::from_slice(alloc, col) {
        Ok(col) => EditAsked::Edits(Edit::SetCost { col, v }),
        Err(AllocError) => EditAsked::Memory,
    }
}

/// Another cost in the second objective.
fn cost2_edit<'a>(alloc: Global, col: &[u8], word: &'a [u8]) -> EditAsked<'a>
    ensures { IsAskedOf (cost2_asks (col.now ∷ word.now ∷ [])) result }
{
    let Some(v) = number_in(word) else {
        return EditAsked::NoNumber { word };
    };
    match Name::from_slice(alloc, col) {
        Ok(col) => EditAsked::Edits(Edit::SetCost2 { col, v }),
        Err(AllocError) => EditAsked::Memory,
    }
}

/// Another side of a row, or both.
fn row_edit<'a>(alloc: Global, row: &[u8], which: &[u8], word: &'a [u8]) -> EditAsked<'a>
    ensures { IsAskedOf (row_asks (row.now ∷ which.now ∷ word.now ∷ [])) result }
{
    let Some(side) = side_in(word) else {
        return EditAsked::NoNumber { word };
    };
    match Name::from_slice(alloc, row) {
        Ok(row) => EditAsked::Edits(sides_edit(row, which, &side)),
        Err(AllocError) => EditAsked::Memory,
    }
}

/// Other bounds of a column.
fn bounds_edit<'a>(alloc: Global, col: &[u8], low: &'a [u8], high: &'a [u8]) -> EditAsked<'a>
    ensures { IsAskedOf (bounds_asks (col.now ∷ low.now ∷ high.now ∷ [])) result }
{
    let Some(lo) = lower_in(low) else {
        return EditAsked::NoNumber { word: low };
    };
    let Some(up) = upper_in(high) else {
        return EditAsked::NoNumber { word: high };
    };
    match Name::from_slice(alloc, col) {
        Ok(col) => EditAsked::Edits(Edit::SetColBounds { col, lo, up }),
        Err(AllocError) => EditAsked::Memory,
    }
}

/// Whether a column has to be whole.
fn kind_edit<'a>(alloc: Global, col: &[u8], which: &[u8]) -> EditAsked<'a>
    ensures { IsAskedOf (kind_asks (col.now ∷ which.now ∷ [])) result }
{
    let int = is_int_word(which);
    match Name::from_slice(alloc, col) {
        Ok(col) => EditAsked::Edits(Edit::SetKind { col, int }),
        Err(AllocError) => EditAsked::Memory,
    }
}

/// A column goes.
fn delcol_edit<'a>(alloc: Global, col: &[u8]) -> EditAsked<'a>
    ensures { IsAskedOf (delcol_asks (col.now ∷ [])) result }
{
    match Name::from_slice(alloc, col) {
        Ok(col) => EditAsked::Edits(Edit::DelCol { col }),
        Err(AllocError) => EditAsked::Memory,
    }
}

/// A row goes.
fn delrow_edit<'a>(alloc: Global, row: &[u8]) -> EditAsked<'a>
    ensures { IsAskedOf (delrow_asks (row.now ∷ [])) result }
{
    match Name::from_slice(alloc, row) {
        Ok(row) => EditAsked::Edits(Edit::DelRow { row }),
        Err(AllocError) => EditAsked::Memory,
    }
}

/// A last column with the entries that words are.
fn column_with<'a>(
    alloc: Global,
    name: &[u8],
    int: bool,
    lo: Bound,
    up: Bound,
    cost: Frac,
    cost2: Frac,
    rest: &[&'a [u8]],
) -> EditAsked<'a>
    ensures { IsAskedOf (with_entries (entries_of (map (λ word. word.now) rest.now)) (λ named. Edits (AddCol name.now int lo up cost cost2 named))) result }
{
    match entries_in(alloc, rest) {
        Entries::Misused => EditAsked::Misused,
        Entries::NoNumber { word } => EditAsked::NoNumber { word },
        Entries::Memory => EditAsked::Memory,
        Entries::Read(entries) => match Name::from_slice(alloc, name) {
            Ok(name) => EditAsked::Edits(Edit::AddCol {
                name,
                int,
                lo,
                up,
                cost,
                cost2,
                entries,
            }),
            Err(AllocError) => {
                drop(entries);
                EditAsked::Memory
            }
        },
    }
}

/// A last column. Its words stand in the order of the form.
fn addcol_edit<'a>(
    alloc: Global,
    name: &[u8],
    which: &[u8],
    low: &'a [u8],
    high: &'a [u8],
    first: &'a [u8],
    second: &'a [u8],
    rest: &[&'a [u8]],
) -> EditAsked<'a>
    ensures { IsAskedOf (addcol_asks (name.now ∷ which.now ∷ low.now ∷ high.now ∷ first.now ∷ second.now ∷ map (λ word. word.now) rest.now)) result }
{
    let int = is_int_word(which);
    let Some(lo) = lower_in(low) else {
        return EditAsked::NoNumber { word: low };
    };
    let Some(up) = upper_in(high) else {
        return EditAsked::NoNumber { word: high };
    };
    let Some(cost) = number_in(first) else {
        return EditAsked::NoNumber { word: first };
    };
    let Some(cost2) = number_in(second) else {
        return EditAsked::NoNumber { word: second };
    };
    column_with(alloc, name, int, lo, up, cost, cost2, rest)
}

/// A row where it goes.
fn whole_row_edit(
    place: RowPlace,
    row: Name,
    lo: Bound,
    hi: Bound,
    entries: List<(Name, Frac)>,
) -> Edit
    ensures { result ≡ whole_row_edit place row lo hi entries }
{
    match place {
        RowPlace::Last => Edit::AddRow {
            name: row,
            lo,
            hi,
            entries,
        },
        RowPlace::Same => Edit::ReplaceRow {
            row,
            lo,
            hi,
            entries,
        },
    }
}

/// A row with its sides, where it goes, and the entries that words are.
fn row_with<'a>(
    alloc: Global,
    place: RowPlace,
    row: &[u8],
    lo: Bound,
    hi: Bound,
    rest: &[&'a [u8]],
) -> EditAsked<'a>
    ensures { IsAskedOf (with_entries (entries_of (map (λ word. word.now) rest.now)) (λ named. Edits (whole_row_edit place row.now lo hi named))) result }
{
    match entries_in(alloc, rest) {
        Entries::Misused => EditAsked::Misused,
        Entries::NoNumber { word } => EditAsked::NoNumber { word },
        Entries::Memory => EditAsked::Memory,
        Entries::Read(entries) => match Name::from_slice(alloc, row) {
            Ok(row) => EditAsked::Edits(whole_row_edit(place, row, lo, hi, entries)),
            Err(AllocError) => {
                drop(entries);
                EditAsked::Memory
            }
        },
    }
}

/// A row with its sides and entries.
fn whole_row<'a>(
    alloc: Global,
    place: RowPlace,
    row: &[u8],
    low: &'a [u8],
    high: &'a [u8],
    rest: &[&'a [u8]],
) -> EditAsked<'a>
    ensures { IsAskedOf (whole_row_asks place (row.now ∷ low.now ∷ high.now ∷ map (λ word. word.now) rest.now)) result }
{
    let Some(lo) = side_in(low) else {
        return EditAsked::NoNumber { word: low };
    };
    let Some(hi) = side_in(high) else {
        return EditAsked::NoNumber { word: high };
    };
    row_with(alloc, place, row, lo, hi, rest)
}

// ---- by the number of words

fn cost_asked<'a>(alloc: Global, words: &[&'a [u8]]) -> EditAsked<'a>
    ensures { IsAskedOf (cost_asks (map (λ word. word.now) words.now)) result }
{
    match words {
        [col, number] => cost_edit(alloc, col, number),
        _ => EditAsked::Misused,
    }
}

fn cost2_asked<'a>(alloc: Global, words: &[&'a [u8]]) -> EditAsked<'a>
    ensures { IsAskedOf (cost2_asks (map (λ word. word.now) words.now)) result }
{
    match words {
        [col, number] => cost2_edit(alloc, col, number),
        _ => EditAsked::Misused,
    }
}

fn row_asked<'a>(alloc: Global, words: &[&'a [u8]]) -> EditAsked<'a>
    ensures { IsAskedOf (row_asks (map (λ word. word.now) words.now)) result }
{
    match words {
        [row, which, side] => row_edit(alloc, row, which, side),
        _ => EditAsked::Misused,
    }
}

fn bounds_asked<'a>(alloc: Global, words: &[&'a [u8]]) -> EditAsked<'a>
    ensures { IsAskedOf (bounds_asks (map (λ word. word.now) words.now)) result }
{
    match words {
        [col, low, high] => bounds_edit(alloc, col, low, high),
        _ => EditAsked::Misused,
    }
}

fn kind_asked<'a>(alloc: Global, words: &[&'a [u8]]) -> EditAsked<'a>
    ensures { IsAskedOf (kind_asks (map (λ word. word.now) words.now)) result }
{
    match words {
        [col, which] => kind_edit(alloc, col, which),
        _ => EditAsked::Misused,
    }
}

fn addcol_asked<'a>(alloc: Global, words: &[&'a [u8]]) -> EditAsked<'a>
    ensures { IsAskedOf (addcol_asks (map (λ word. word.now) words.now)) result }
{
    match words {
        [name, which, low, high, cost, cost2, rest @ ..] => addcol_edit(
            alloc, name, which, low, high, cost, cost2, rest,
        ),
        _ => EditAsked::Misused,
    }
}

fn delcol_asked<'a>(alloc: Global, words: &[&'a [u8]]) -> EditAsked<'a>
    ensures { IsAskedOf (delcol_asks (map (λ word. word.now) words.now)) result }
{
    match words {
        [col] => delcol_edit(alloc, col),
        _ => EditAsked::Misused,
    }
}

fn delrow_asked<'a>(alloc: Global, words: &[&'a [u8]]) -> EditAsked<'a>
    ensures { IsAskedOf (delrow_asks (map (λ word. word.now) words.now)) result }
{
    match words {
        [row] => delrow_edit(alloc, row),
        _ => EditAsked::Misused,
    }
}

fn whole_row_asked<'a>(alloc: Global, place: RowPlace, words: &[&'a [u8]]) -> EditAsked<'a>
    ensures { IsAskedOf (whole_row_asks place (map (λ word. word.now) words.now)) result }
{
    match words {
        [row, low, high, rest @ ..] => whole_row(alloc, place, row, low, high, rest),
        _ => EditAsked::Misused,
    }
}

/// What words of the kind ask for.
fn asked_of<'a>(alloc: Global, kind: EditKind, words: &[&'a [u8]]) -> EditAsked<'a>
    ensures { IsAskedOf (meaning kind (map (λ word. word.now) words.now)) result }
{
    match kind {
        EditKind::Cost => cost_asked(alloc, words),
        EditKind::Cost2 => cost2_asked(alloc, words),
        EditKind::Row => row_asked(alloc, words),
        EditKind::Bounds => bounds_asked(alloc, words),
        EditKind::Kind => kind_asked(alloc, words),
        EditKind::AddCol => addcol_asked(alloc, words),
        EditKind::DelCol => delcol_asked(alloc, words),
        EditKind::AddRow => whole_row_asked(alloc, RowPlace::Last, words),
        EditKind::DelRow => delrow_asked(alloc, words),
        EditKind::ReplaceRow => whole_row_asked(alloc, RowPlace::Same, words),
    }
}

/// What the words behind the kind's own ask for.
fn formed_asked<'a>(alloc: Global, kind: EditKind, words: &[&'a [u8]]) -> EditAsked<'a>
    ensures { IsAskedOf (formed_asks (Some kind) (map (λ word. word.now) words.now)) result }
{
    if fits(kind.slots(), kind.has_pairs(), words) {
        asked_of(alloc, kind, words)
    } else {
        EditAsked::Misused
    }
}

/// What the words behind `edit` ask for.
pub fn read_edit<'a>(alloc: Global, words: &[&'a [u8]]) -> EditAsked<'a>
    ensures asked { IsAskedOf (edit_asks (map (λ word. word.now) words.now)) result }
{
    let [what, rest @ ..] = words else {
        return EditAsked::Misused;
    };
    match EditKind::of(what) {
        Some(kind) => formed_asked(alloc, kind, rest),
        None => EditAsked::Misused,
    }
}
