// What a search answers.
use crate::counting::count_edit;
use anyhow::Result;
use frac128::Frac;
use lp_model::Model;
use model_calls::{push_answer, section, take_number};
use model_texts::{Words, edit_of};
use search_calls::{read_search, taken_word, whole_result};
use search_counting::cap;
use search_file::{data_of, search_of};
use std::alloc::{AllocError, Global};
use std::mem::replace;
use tree_edit::Search;

/// Makes a call of a search by the words behind it, and writes its answer.
fn answer(
    alloc: Global,
    search: &mut Search,
    word: &str,
    words: &mut Words,
    got: &mut String,
) -> Result<()> {
    match word {
        "edit" => edit(alloc, search, words, got)?,
        "counted" => count_edit(alloc, search, words, got)?,
        "limit" => search.set_limit(take_number(words)?),
        "restart" => search.restart()?,
        "trim" => search.trim(take_number(words)?)?,
        "again" => again(alloc, search)?,
        _ => read(search, word, words, got)?,
    }
    Ok(())
}

/// Makes a call of a search, and writes its answer.
pub fn call(
    alloc: Global,
    search: &mut Search,
    word: &str,
    line: &str,
    got: &mut String,
) -> Result<()> {
    if word == "place" {
        return place(alloc, search, line, got);
    }
    let mut words = Words::new(alloc, line)?;
    answer(alloc, search, word, &mut words, got)?;
    words.end()
}

/// Goes over to the search that is made of the data of this one.
fn again(alloc: Global, search: &mut Search) -> Result<()> {
    let made = made_again(alloc, search)?;
    drop(replace(search, made));
    Ok(())
}

/// The search that is made of the data of another.
fn made_again(alloc: Global, search: &Search) -> Result<Search, AllocError> {
    let _sound = search.points();
    let stated = data_of(alloc, search)?;
    search_of(alloc, stated)
}

/// Makes a call that changes nothing.
fn read(search: &Search, word: &str, words: &mut Words, got: &mut String) -> Result<()> {
    match word {
        "cap" => most_results(search.model(), got),
        _ => read_search(search, word, words, got),
    }
}

/// `ID keep`, `ID close` or `ID split COLUMN at V`, and sections.
fn place(alloc: Global, search: &mut Search, line: &str, got: &mut String) -> Result<()> {
    let mut words = section(alloc, line, "")?;
    let id = take_number(&mut words)?;
    let done = whole_result(alloc, search.model(), &mut words, line)?;
    let taken = search.place(id, done)?;
    got.push_str(taken_word(taken))?;
    Ok(())
}

fn edit(alloc: Global, search: &mut Search, words: &mut Words, got: &mut String) -> Result<()> {
    let edit = edit_of(alloc, words)?;
    let answer = search.edit(edit);
    let pushed = push_answer(got, &answer);
    drop(answer);
    pushed
}

/// Writes a number, and `none` where there is none.
pub fn push_some(got: &mut String, number: &Option<Frac>) -> Result<()> {
    match number {
        Some(number) => write!(got, " {number}")?,
        None => got.push_str(" none")?,
    }
    Ok(())
}

/// Writes how many results a search of the model can place.
fn most_results(model: &Model, got: &mut String) -> Result<()> {
    match cap(model) {
        Some(most) => write!(got, "{most}")?,
        None => got.push_str("none")?,
    }
    Ok(())
}
