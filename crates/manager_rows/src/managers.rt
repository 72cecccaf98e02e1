// What a manager answers.
use anyhow::{Result, ensure};
use branch_tree::Job;
use cover_cuts::PoolFault;
use model_calls::{derivation_of, push_answer, section, take_number};
use model_texts::{Words, edit_of};
use search_calls::{push_region, read_search, taken_word, whole_result};
use std::alloc::Global;
use tree_manager::Manager;

/// Makes a call of a manager, and writes its answer.
pub fn call(
    alloc: Global,
    manager: &mut Manager,
    word: &str,
    line: &str,
    got: &mut String,
) -> Result<()> {
    match word {
        "take" => take(alloc, manager, line, got),
        "cut" => cut(alloc, manager, line, got),
        _ => {
            let mut words = Words::new(alloc, line)?;
            answer(alloc, manager, word, &mut words, got)?;
            words.end()
        }
    }
}

/// Makes a call by the words behind it, and writes its answer.
fn answer(
    alloc: Global,
    manager: &mut Manager,
    word: &str,
    words: &mut Words,
    got: &mut String,
) -> Result<()> {
    match word {
        "give" => give(manager, words, got)?,
        "lose" => lose(manager, words)?,
        "edit" => edit(alloc, manager, words, got)?,
        "trim" => manager.trim(take_number(words)?)?,
        _ => read(manager, word, words, got)?,
    }
    Ok(())
}

/// Makes a call that changes nothing.
fn read(manager: &Manager, word: &str, words: &mut Words, got: &mut String) -> Result<()> {
    match word {
        "held" => held(manager, got),
        "finished" => finished(manager, got),
        "next" => push_id(got, manager.next_free_leaf()),
        _ => read_search(manager.search(), word, words, got),
    }
}

/// Writes an id, or `none`.
fn push_id(got: &mut String, id: Option<u64>) -> Result<()> {
    match id {
        Some(id) => write!(got, "{id}")?,
        None => got.push_str("none")?,
    }
    Ok(())
}

/// `give W`: the id of the job, its region and its target; or `none`.
fn give(manager: &mut Manager, words: &mut Words, got: &mut String) -> Result<()> {
    let worker = take_number(words)?;
    ensure!(worker < manager.held().len() as u64, "no worker {worker}");
    match manager.give(worker as usize)? {
        Some(job) => push_job(got, manager, &job)?,
        None => got.push_str("none")?,
    }
    Ok(())
}

fn push_job(got: &mut String, manager: &Manager, job: &Job) -> Result<()> {
    write!(got, "job {}", job.id)?;
    push_region(got, manager.search().model(), &job.region)?;
    match &job.target {
        Some(target) => write!(got, " target {target}")?,
        None => got.push_str(" target none")?,
    }
    Ok(())
}

/// `take W ID keep`, `take W ID close` or `take W ID split COLUMN at V`, and sections.
fn take(alloc: Global, manager: &mut Manager, line: &str, got: &mut String) -> Result<()> {
    let mut words = section(alloc, line, "")?;
    let worker = take_number(&mut words)?;
    ensure!(worker < manager.held().len() as u64, "no worker {worker}");
    let id = take_number(&mut words)?;
    let done = whole_result(alloc, manager.search().model(), &mut words, line)?;
    let taken = manager.take(worker as usize, id, done)?;
    got.push_str(taken_word(taken))?;
    Ok(())
}

fn lose(manager: &mut Manager, words: &mut Words) -> Result<()> {
    let worker = take_number(words)?;
    ensure!(worker < manager.held().len() as u64, "no worker {worker}");
    manager.lose(worker as usize);
    Ok(())
}

fn edit(alloc: Global, manager: &mut Manager, words: &mut Words, got: &mut String) -> Result<()> {
    let edit = edit_of(alloc, words)?;
    let answer = manager.edit(edit);
    let pushed = push_answer(got, &answer);
    drop(answer);
    pushed
}

/// `cut ROW hi X -Y`: the place of the cut in the pool, or `full`.
fn cut(alloc: Global, manager: &mut Manager, line: &str, got: &mut String) -> Result<()> {
    let derivation = derivation_of(alloc, manager.search().model(), line)?;
    match manager.add_cut(derivation) {
        Ok(id) => write!(got, "{}", id.0)?,
        Err(PoolFault::Full) => got.push_str("full")?,
        Err(PoolFault::Memory) => got.push_str("no memory")?,
    }
    Ok(())
}

/// Writes for each worker the id that it holds, or `none`.
fn held(manager: &Manager, got: &mut String) -> Result<()> {
    for holding in manager.held() {
        got.push(' ')?;
        push_id(got, *holding)?;
    }
    Ok(())
}

fn finished(manager: &Manager, got: &mut String) -> Result<()> {
    got.push_str(if manager.finished() { "yes" } else { "no" })?;
    Ok(())
}
