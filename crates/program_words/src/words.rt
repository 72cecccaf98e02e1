// The words of the command line.
ghost use Rattle.std.specs.Prelude.{◌≡◌, ◌≢◌, false, IfOk, IsErrOf};
ghost use Rattle.clap.specs.Words.{app_of, kind_of, with_rule, with_subcommand, found_of, subcommand_rows_of};
ghost use Rattle.clap.specs.Walk.{rows_of};
ghost use Rattle.clap.specs.declared.builder.command.Command.TheViews.{out-Command};
ghost use Rattle.clap.specs.declared.error.ErrorKind.TheVariants.{OutOfMemory};
ghost use Rattle.program_words.specs.Forms.{run_app, required_word, check_app, required_number, bench_app, symphony_alone, symphony, TakesWords, asked_by, asked_form, form_shown, argument_text, argument_number};

use clap::builder::ValueParser;
use clap::error::ErrorKind;
use clap::{Arg, ArgMatches, Command};
use std::alloc::{AllocError, Global};
use thiserror::Error;

/// What the words ask the program to do.
#[derive(Clone, Copy)]
pub enum Form<'a> {
    /// To answer the commands of a script.
    Run,
    /// To check a certificate, both being names of files.
    Check {
        model: &'a str,
        cert: &'a str,
    },
    /// To solve the model of a seed with so many rows and columns, placing so many results at most.
    Bench {
        seed: u64,
        rows: u64,
        cols: u64,
        nodes: u64,
    },
}

/// Why the words have no form.
#[derive(Clone, Copy, Debug, Error)]
pub enum WordsFault {
    /// They are none of the program's forms.
    #[error("the words have no form")]
    Refused,
    /// Memory was wanting to read them.
    #[error("there is no memory")]
    Memory,
}

/// The form `run`.
fn run_command<'a>(alloc: Global) -> Command<'a>
    ensures app { app_of result ≡ run_app }
    ensures local { (out-Command result).has_globals ≡ false }
{
    Command::new(alloc, "run")
}

/// The command with one more word that has to be there.
fn with_word<'a>(
    alloc: Global,
    command: Command<'a>,
    name: &'a str,
) -> Result<Command<'a>, AllocError>
    requires { (out-Command command).has_globals ≡ false }
    ensures app { IfOk result (λ longer. app_of longer ≡ with_rule (app_of command.entry) (required_word name.now)) }
    ensures local { IfOk result (λ longer. (out-Command longer).has_globals ≡ false) }
{
    command.arg(Arg::new(alloc, name).required(true))
}

/// The form `check MODEL CERT`.
fn check_command<'a>(alloc: Global) -> Result<Command<'a>, AllocError>
    ensures app { IfOk result (λ command. app_of command ≡ check_app) }
    ensures local { IfOk result (λ command. (out-Command command).has_globals ≡ false) }
{
    let Ok(command) = with_word(alloc, Command::new(alloc, "check"), "MODEL") else {
        return Err(AllocError);
    };
    with_word(alloc, command, "CERT")
}

/// The command with one more word that has to be there, a whole number from `low` to `high`.
fn with_number<'a>(
    alloc: Global,
    command: Command<'a>,
    name: &'a str,
    low: u64,
    high: u64,
) -> Result<Command<'a>, AllocError>
    requires { (out-Command command).has_globals ≡ false }
    ensures app { IfOk result (λ longer. app_of longer ≡ with_rule (app_of command.entry) (required_number name.now low high)) }
    ensures local { IfOk result (λ longer. (out-Command longer).has_globals ≡ false) }
{
    let number = ValueParser::unsigned(low, high);
    command.arg(Arg::new(alloc, name).required(true).value_parser(number))
}

/// The form `bench SEED ROWS COLS NODES`.
fn bench_command<'a>(alloc: Global) -> Result<Command<'a>, AllocError>
    ensures app { IfOk result (λ command. app_of command ≡ bench_app) }
    ensures local { IfOk result (λ command. (out-Command command).has_globals ≡ false) }
{
    let Ok(command) = with_number(alloc, Command::new(alloc, "bench"), "SEED", 0, u64::MAX) else {
        return Err(AllocError);
    };
    let Ok(command) = with_number(alloc, command, "ROWS", 1, 100) else {
        return Err(AllocError);
    };
    let Ok(command) = with_number(alloc, command, "COLS", 1, 40) else {
        return Err(AllocError);
    };
    with_number(alloc, command, "NODES", 0, u64::MAX)
}

/// The program's name without subcommands. Help and the version are no subcommands or flags: other words have the usage
/// line.
fn bare_command_line<'a>(alloc: Global) -> Command<'a>
    ensures { app_of result ≡ symphony_alone }
{
    Command::new(alloc, "symphony")
        .disable_help_flag(true)
        .disable_version_flag(true)
        .disable_help_subcommand(true)
        .subcommand_required(true)
}

/// The program's name with the subcommand `run`.
fn run_command_line<'a>(alloc: Global) -> Result<Command<'a>, AllocError>
    ensures { IfOk result (λ command. app_of command ≡ with_subcommand symphony_alone run_app.top) }
{
    bare_command_line(alloc).subcommand(run_command(alloc))
}

/// The program's name with the subcommands `run` and `check`.
fn check_command_line<'a>(alloc: Global) -> Result<Command<'a>, AllocError>
    ensures { IfOk result (λ command. app_of command ≡ with_subcommand (with_subcommand symphony_alone run_app.top) check_app.top) }
{
    let Ok(check) = check_command(alloc) else {
        return Err(AllocError);
    };
    let Ok(command) = run_command_line(alloc) else {
        drop(check);
        return Err(AllocError);
    };
    command.subcommand(check)
}

/// The command line: the program's name and a subcommand for each form.
fn command_line<'a>(alloc: Global) -> Result<Command<'a>, AllocError>
    ensures { IfOk result (λ command. app_of command ≡ symphony) }
{
    let Ok(bench) = bench_command(alloc) else {
        return Err(AllocError);
    };
    let Ok(command) = check_command_line(alloc) else {
        drop(bench);
        return Err(AllocError);
    };
    command.subcommand(bench)
}

/// The value of an argument, or no text where it has none.
fn value_of<'a>(matches: &ArgMatches<'a>, name: &str) -> &'a str
    ensures { result.now ≡ argument_text name.now (rows_of (found_of matches.now)) }
{
    match matches.get_str(name) {
        Some(value) => value,
        None => "",
    }
}

/// The whole number of 64 bits that the value of an argument spells, or 0 where it spells none.
fn number_of(matches: &ArgMatches<'_>, name: &str) -> u64
    ensures { result ≡ argument_number name.now (rows_of (found_of matches.now)) }
{
    match value_of(matches, name).parse::<u64>() {
        Ok(number) => number,
        Err(_) => 0,
    }
}

/// What the matches ask for.
fn form_in<'a>(matches: &ArgMatches<'a>) -> Form<'a>
    ensures { form_shown result ≡ asked_by (subcommand_rows_of matches.now) }
{
    match matches.subcommand() {
        Some((name, values)) => {
            if name == "check" {
                Form::Check {
                    model: value_of(values, "MODEL"),
                    cert: value_of(values, "CERT"),
                }
            } else if name == "bench" {
                Form::Bench {
                    seed: number_of(values, "SEED"),
                    rows: number_of(values, "ROWS"),
                    cols: number_of(values, "COLS"),
                    nodes: number_of(values, "NODES"),
                }
            } else {
                Form::Run
            }
        }
        None => Form::Run,
    }
}

/// Why words have no form, by the error that was met.
fn fault_by(error: clap::Error) -> WordsFault
    ensures { result ≡ WordsFault.Refused → kind_of error ≢ OutOfMemory }
{
    match error.kind() {
        ErrorKind::OutOfMemory => WordsFault::Memory,
        _ => WordsFault::Refused,
    }
}

/// What the words ask for, of which the first is the program's name.
pub fn form_of<'a>(alloc: Global, words: &'a [String]) -> Result<Form<'a>, WordsFault>
    ensures taken { IfOk result (λ _. TakesWords words.now) }
    ensures asked { IfOk result (λ form. form_shown form ≡ asked_form words.now) }
    ensures refused { IsErrOf result WordsFault.Refused → ¬ (TakesWords words.now) }
{
    let Ok(command) = command_line(alloc) else {
        return Err(WordsFault::Memory);
    };
    match command.try_get_matches_from(words) {
        Ok(matches) => {
            let form = form_in(&matches);
            drop(matches);
            Ok(form)
        }
        Err(error) => Err(fault_by(error)),
    }
}
