// The edit that a line says.
use crate::words::{Words, fault, number_of};
use anyhow::{Result, bail};
use frac128::Frac;
use lp_model::{Bound, Edit, List, Name};
use std::alloc::Global;

fn take_entries(alloc: Global, words: &mut Words, entries: &mut List<(Name, Frac)>) -> Result<()> {
    for _ in 0..words.most() {
        if words.is_done() {
            break;
        }
        let name = words.name(alloc)?;
        match words.number() {
            Ok(number) => entries.push((name, number))?,
            Err(error) => {
                drop(name);
                return Err(error);
            }
        }
    }
    Ok(())
}

/// The names that are left and the numbers behind them.
fn entries_of(alloc: Global, words: &mut Words) -> Result<List<(Name, Frac)>> {
    let mut entries = List::new(alloc);
    match take_entries(alloc, words, &mut entries) {
        Ok(()) => Ok(entries),
        Err(error) => {
            drop(entries);
            Err(error)
        }
    }
}

/// The number behind a key, 0 where the key is not next.
pub fn keyed(words: &mut Words, key: &str) -> Result<Frac> {
    if words.takes(key) {
        words.number()
    } else {
        Ok(Frac::whole(0))
    }
}

/// Whether a column is integer, by the next word if it says that.
fn is_integer(words: &mut Words) -> bool {
    if words.takes("integer") {
        return true;
    }
    let _real = words.takes("real");
    false
}

/// What stands behind the name of a column that is new.
#[derive(Drop)]
struct ColumnWords {
    int: bool,
    sides: (Bound, Bound),
    cost: Frac,
    cost2: Frac,
}

/// `[integer | real] LOW..HIGH [cost C] [cost2 C]`
fn column_words(words: &mut Words) -> Result<ColumnWords> {
    let int = is_integer(words);
    let sides = words.range()?;
    let cost = keyed(words, "cost")?;
    let cost2 = keyed(words, "cost2")?;
    Ok(ColumnWords {
        int,
        sides,
        cost,
        cost2,
    })
}

/// The edit that adds a column, with the entries that are left.
fn column_named(alloc: Global, words: &mut Words, name: Name, said: ColumnWords) -> Result<Edit> {
    let (lo, up) = said.sides;
    match entries_of(alloc, words) {
        Ok(entries) => Ok(Edit::AddCol {
            name,
            int: said.int,
            lo,
            up,
            cost: said.cost,
            cost2: said.cost2,
            entries,
        }),
        Err(error) => {
            drop(name);
            Err(error)
        }
    }
}

/// `NAME [integer | real] LOW..HIGH [cost C] [cost2 C] [ROW NUMBER]..`
fn column_edit(alloc: Global, words: &mut Words) -> Result<Edit> {
    let name = words.name(alloc)?;
    match column_words(words) {
        Ok(said) => column_named(alloc, words, name, said),
        Err(error) => {
            drop(name);
            Err(error)
        }
    }
}

/// `LOW..HIGH [COLUMN NUMBER]..`
fn row_words(alloc: Global, words: &mut Words) -> Result<(Bound, Bound, List<(Name, Frac)>)> {
    let (lo, hi) = words.range()?;
    let entries = entries_of(alloc, words)?;
    Ok((lo, hi, entries))
}

/// `NAME LOW..HIGH [COLUMN NUMBER]..`
fn row_edit(alloc: Global, words: &mut Words) -> Result<Edit> {
    let name = words.name(alloc)?;
    match row_words(alloc, words) {
        Ok((lo, hi, entries)) => Ok(Edit::AddRow {
            name,
            lo,
            hi,
            entries,
        }),
        Err(error) => {
            drop(name);
            Err(error)
        }
    }
}

/// `NAME LOW..HIGH [COLUMN NUMBER]..`
fn replacement(alloc: Global, words: &mut Words) -> Result<Edit> {
    let row = words.name(alloc)?;
    match row_words(alloc, words) {
        Ok((lo, hi, entries)) => Ok(Edit::ReplaceRow {
            row,
            lo,
            hi,
            entries,
        }),
        Err(error) => {
            drop(row);
            Err(error)
        }
    }
}

/// The number at the end of a line.
fn last_number(words: &mut Words) -> Result<Frac> {
    let number = words.number()?;
    words.end()?;
    Ok(number)
}

/// `NAME NUMBER`
fn cost_edit(alloc: Global, words: &mut Words, second: bool) -> Result<Edit> {
    let col = words.name(alloc)?;
    match last_number(words) {
        Ok(v) if second => Ok(Edit::SetCost2 { col, v }),
        Ok(v) => Ok(Edit::SetCost { col, v }),
        Err(error) => {
            drop(col);
            Err(error)
        }
    }
}

/// The range at the end of a line.
fn last_range(words: &mut Words) -> Result<(Bound, Bound)> {
    let range = words.range()?;
    words.end()?;
    Ok(range)
}

/// `NAME LOW..HIGH`
fn bounds_edit(alloc: Global, words: &mut Words) -> Result<Edit> {
    let col = words.name(alloc)?;
    match last_range(words) {
        Ok((lo, up)) => Ok(Edit::SetColBounds { col, lo, up }),
        Err(error) => {
            drop(col);
            Err(error)
        }
    }
}

/// `integer` or `real` at the end of a line
fn last_kind(words: &mut Words) -> Result<bool> {
    let int = words.takes("integer");
    if !int && !words.takes("real") {
        bail!("no `integer` or `real` behind the name");
    }
    words.end()?;
    Ok(int)
}

/// `NAME integer` or `NAME real`
fn kind_edit(alloc: Global, words: &mut Words) -> Result<Edit> {
    let col = words.name(alloc)?;
    match last_kind(words) {
        Ok(int) => Ok(Edit::SetKind { col, int }),
        Err(error) => {
            drop(col);
            Err(error)
        }
    }
}

/// The side that a word says: kept where it is `kept`, taken away where it is `none`, and else set to the number.
fn side_in(word: &str) -> Result<Option<Bound>> {
    match word {
        "kept" => Ok(None),
        "none" => Ok(Some(None)),
        _ => {
            let number = number_of(word)?;
            Ok(Some(Some(number)))
        }
    }
}

/// Takes the next word, which says a side.
fn changed_side(words: &mut Words) -> Result<Option<Bound>> {
    let word = words.next("side")?;
    let side = side_in(&word);
    drop(word);
    side
}

/// `LOW HIGH` at the end of a line, each a number, `none` or `kept`
fn last_sides(words: &mut Words) -> Result<(Option<Bound>, Option<Bound>)> {
    let lo = changed_side(words)?;
    let hi = changed_side(words)?;
    words.end()?;
    Ok((lo, hi))
}

/// `NAME LOW HIGH`
fn sides_edit(alloc: Global, words: &mut Words) -> Result<Edit> {
    let row = words.name(alloc)?;
    match last_sides(words) {
        Ok((lo, hi)) => Ok(Edit::SetRow { row, lo, hi }),
        Err(error) => {
            drop(row);
            Err(error)
        }
    }
}

/// `column NAME` or `row NAME`
fn deletion(alloc: Global, words: &mut Words) -> Result<Edit> {
    let is_column = words.takes("column");
    if !is_column && !words.takes("row") {
        bail!("no `column` or `row` behind `delete`");
    }
    let name = words.name(alloc)?;
    match words.end() {
        Ok(()) if is_column => Ok(Edit::DelCol { col: name }),
        Ok(()) => Ok(Edit::DelRow { row: name }),
        Err(error) => {
            drop(name);
            Err(error)
        }
    }
}

/// The edit of a line that adds a column or a row, or puts a row in place of one.
fn adding_edit(alloc: Global, words: &mut Words, what: &str) -> Result<Edit> {
    match what {
        "column" => column_edit(alloc, words),
        "row" => row_edit(alloc, words),
        "replace" => replacement(alloc, words),
        "delete" => deletion(alloc, words),
        _ => Err(fault("no edit", what)),
    }
}

/// The edit that the words behind the first one say.
fn edit_named(alloc: Global, words: &mut Words, what: &str) -> Result<Edit> {
    match what {
        "sides" => sides_edit(alloc, words),
        "cost" => cost_edit(alloc, words, false),
        "cost2" => cost_edit(alloc, words, true),
        "bounds" => bounds_edit(alloc, words),
        "kind" => kind_edit(alloc, words),
        _ => adding_edit(alloc, words, what),
    }
}

/// The edit that the words of a line say: a new `column` or `row`, another row in place of one (`replace`), other `sides` of
/// a row, another `cost`, `cost2`, `kind` or other `bounds` of a column, or one that goes (`delete`).
pub fn edit_of(alloc: Global, words: &mut Words) -> Result<Edit> {
    let what = words.next("edit")?;
    let edit = edit_named(alloc, words, &what);
    drop(what);
    edit
}
