// What the words of a line ask for.
ghost use Rattle.std.specs.Prelude.{◌≡◌, true, map, [], ◌∷◌};
ghost use Rattle.std.specs.List.{list_all};
ghost use Rattle.command_words.specs.Names.{command_of, begins_name, is_file_name_byte, is_file_name, whole_number_of};
ghost use Rattle.command_words.specs.private.Names.{command_behind_edit, command_behind_lbobj};
ghost use Rattle.command_words.specs.Asks.{Trim, with_number, asks_of, asks_shown, load_asks, restore_asks, trim_asks, search_asks, begun_asks, solve_asks, warm_asks, mcsolve_asks, filed_asks, file_asks, save_asks, cert_asks, write_asks, quit_asks, known_asks, IsAskable};

use crate::options::{
    ANY_LIMIT, ANY_OPTION, Awaited, NO_OPTION, SearchOptions, are_options, options_asked,
};
use text_lines::is_word;

/// Which bound on a model's best value, in least form.
#[derive(Clone, Copy)]
pub enum OptimumBound {
    /// A lower one, from the tree that is kept.
    Lower,
    /// An upper one, from the points that are kept.
    Upper,
}

/// Which numbers of the model become others.
#[derive(Clone, Copy)]
pub enum NewNumbers {
    /// Sides of rows.
    Sides,
    /// Costs of columns.
    Costs,
}

/// The commands that there are.
#[derive(Clone, Copy)]
pub enum CommandName {
    Load,
    Solve,
    Warm,
    McSolve,
    Edit,
    Trim,
    Save,
    Restore,
    Bound(OptimumBound, NewNumbers),
    Cert,
    Write,
    Quit,
}

/// Where a search begins.
#[derive(Clone, Copy)]
pub(crate) enum Beginning {
    /// At a fresh root.
    Anew,
    /// At the search that is kept.
    Kept,
    /// At a fresh root for each part of the frontier.
    Parts,
}

/// What a file is to hold.
#[derive(Clone, Copy)]
enum Content {
    /// The certificate of the answer that is held.
    Certificate,
    /// The model that is present.
    Model,
    /// The search that is kept.
    Search,
}

/// What the words of a line ask for.
#[derive(Clone, Copy)]
pub enum Asked<'a> {
    /// The model of a file. An integer column without an upper bound has `intupper`, if that is named.
    Load {
        file: &'a [u8],
        intupper: Option<u64>,
    },
    /// A search of the model that is present.
    Solve {
        options: SearchOptions,
    },
    /// The same, going on from the search that is kept.
    Warm {
        options: SearchOptions,
    },
    /// The outcomes of both objectives that no other outcome is better than, by searches that place so many results together and make
    /// so many simplex steps in each of their relaxations.
    McSolve {
        nodes: u64,
        pivots: u64,
    },
    /// An edit of the model that is present, as these words behind `edit` say it.
    Edit {
        words: &'a [&'a [u8]],
    },
    /// Each split of the tree at this depth, the root being at 0, is to become one leaf.
    Trim {
        depth: u64,
    },
    /// The search that is kept, as a file.
    Save {
        file: &'a [u8],
    },
    /// The search of a file.
    Restore {
        file: &'a [u8],
    },
    /// A bound on the best value that the model has with other sides or costs, which these words behind the command say.
    Bound {
        which: OptimumBound,
        numbers: NewNumbers,
        words: &'a [&'a [u8]],
    },
    /// The certificate of the answer that is held, as a file.
    Cert {
        file: &'a [u8],
    },
    /// The model that is present, as a file.
    Write {
        file: &'a [u8],
    },
    /// The end of the script.
    Quit,
    /// The first word is no command.
    Unknown {
        word: &'a [u8],
    },
    /// The words have none of the command's forms.
    Misused,
    /// This word stands in a number's place and is no whole number of 64 bits; where it is a gap's, no number of at least 0.
    NoNumber {
        word: &'a [u8],
    },
}

/// The command that a first word names.
fn command_named(word: &[u8]) -> Option<CommandName>
    ensures { result ≡ command_of word.now }
{
    if is_word(b"load", word) {
        Some(CommandName::Load)
    } else if is_word(b"solve", word) {
        Some(CommandName::Solve)
    } else if is_word(b"warm", word) {
        Some(CommandName::Warm)
    } else if is_word(b"mcsolve", word) {
        Some(CommandName::McSolve)
    } else if is_word(b"edit", word) {
        Some(CommandName::Edit)
    } else {
        command_behind_edit(word)
    }
}

/// The command that a word names which names none up to `edit`.
fn command_behind_edit(word: &[u8]) -> Option<CommandName>
    ensures { result ≡ command_behind_edit word.now }
{
    if is_word(b"trim", word) {
        Some(CommandName::Trim)
    } else if is_word(b"save", word) {
        Some(CommandName::Save)
    } else if is_word(b"restore", word) {
        Some(CommandName::Restore)
    } else if is_word(b"lbrhs", word) {
        Some(CommandName::Bound(OptimumBound::Lower, NewNumbers::Sides))
    } else if is_word(b"lbobj", word) {
        Some(CommandName::Bound(OptimumBound::Lower, NewNumbers::Costs))
    } else {
        command_behind_lbobj(word)
    }
}

/// The command that a word names which names none up to `lbobj`.
fn command_behind_lbobj(word: &[u8]) -> Option<CommandName>
    ensures { result ≡ command_behind_lbobj word.now }
{
    if is_word(b"ubrhs", word) {
        Some(CommandName::Bound(OptimumBound::Upper, NewNumbers::Sides))
    } else if is_word(b"ubobj", word) {
        Some(CommandName::Bound(OptimumBound::Upper, NewNumbers::Costs))
    } else if is_word(b"cert", word) {
        Some(CommandName::Cert)
    } else if is_word(b"write", word) {
        Some(CommandName::Write)
    } else if is_word(b"quit", word) {
        Some(CommandName::Quit)
    } else {
        None
    }
}

fn is_letter_digit_or_mark(byte: u8) -> bool
    ensures { result ≡ is_file_name_byte byte }
{
    matches!(byte, b'a'..=b'z' | b'A'..=b'Z' | b'0'..=b'9' | b'.' | b'_' | b'-')
}

fn begins_as_name(word: &[u8]) -> bool
    ensures { result ≡ begins_name word.now }
{
    match word {
        [first, ..] => !(*first == b'.' || *first == b'-'),
        [] => false,
    }
}

fn has_name_bytes(word: &[u8]) -> bool
    ensures { result ≡ list_all is_file_name_byte word.now }
{
    for index in 0..word.len() {
        if !is_letter_digit_or_mark(word[index]) {
            return false;
        }
    }
    true
}

/// Whether a word is a file name: 1 to 255 letters, digits, `.`, `_` and `-`, not beginning with `.` or `-`.
pub fn is_file_name_word(word: &[u8]) -> bool
    ensures { result ≡ is_file_name word.now }
{
    begins_as_name(word) && word.len() <= 255 && has_name_bytes(word)
}

/// A file name is text.
pub fn file_name(word: &[u8]) -> &str
    requires { is_file_name word.now ≡ true }
    ensures { result.now ≡ word.now }
{
    let Ok(name) = str::from_utf8(word) else {
        unreachable!()
    };
    name
}

/// The whole number of 64 bits that a word is in decimal digits, without a sign or a leading zero.
pub(crate) fn whole_number(word: &[u8]) -> Option<u64>
    ensures { result ≡ whole_number_of word.now }
{
    let Ok(text) = str::from_utf8(word) else {
        return None;
    };
    let Ok(number) = text.parse::<u64>() else {
        return None;
    };
    let mut digits = itoa::Buffer::new();
    if digits.format(number).as_bytes() == word {
        Some(number)
    } else {
        None
    }
}

/// What `load F intupper N` asks for, with these words behind `load`.
fn bounded_load<'a>(file: &'a [u8], key: &[u8], number: &'a [u8]) -> Asked<'a>
    ensures { asks_shown result ≡ load_asks (file.now ∷ key.now ∷ number.now ∷ []) }
{
    if !(is_file_name_word(file) & is_word(b"intupper", key)) {
        return Asked::Misused;
    }
    match whole_number(number) {
        Some(upper) => Asked::Load {
            file,
            intupper: Some(upper),
        },
        None => Asked::NoNumber { word: number },
    }
}

/// What `load F` asks for.
fn plain_load(file: &[u8]) -> Asked<'_>
    ensures { asks_shown result ≡ load_asks (file.now ∷ []) }
{
    if is_file_name_word(file) {
        Asked::Load {
            file,
            intupper: None,
        }
    } else {
        Asked::Misused
    }
}

/// What `load` with these further words asks for.
fn load_asked<'a>(arguments: &[&'a [u8]]) -> Asked<'a>
    ensures { asks_shown result ≡ load_asks (map (λ word. word.now) arguments.now) }
{
    match arguments {
        [file] => plain_load(file),
        [file, key, number] => bounded_load(file, key, number),
        _ => Asked::Misused,
    }
}

/// A search that begins so, with these options.
pub(crate) fn search_asked<'a>(beginning: Beginning, options: SearchOptions) -> Asked<'a>
    ensures { asks_shown result ≡ begun_asks beginning options }
{
    match beginning {
        Beginning::Anew => Asked::Solve { options },
        Beginning::Kept => Asked::Warm { options },
        Beginning::Parts => Asked::McSolve {
            nodes: options.nodes,
            pivots: options.pivots,
        },
    }
}

/// What a search that takes these options asks for with these further words.
fn optioned_search<'a>(awaited: Awaited, beginning: Beginning, arguments: &[&'a [u8]]) -> Asked<'a>
    ensures { asks_shown result ≡ search_asks awaited (begun_asks beginning) (map (λ word. word.now) arguments.now) }
{
    if are_options(awaited, arguments) {
        options_asked(beginning, NO_OPTION, arguments)
    } else {
        Asked::Misused
    }
}

/// What `solve` with these further words asks for.
fn solve_asked<'a>(arguments: &[&'a [u8]]) -> Asked<'a>
    ensures { asks_shown result ≡ solve_asks (map (λ word. word.now) arguments.now) }
{
    optioned_search(ANY_OPTION, Beginning::Anew, arguments)
}

/// What `warm` with these further words asks for.
fn warm_asked<'a>(arguments: &[&'a [u8]]) -> Asked<'a>
    ensures { asks_shown result ≡ warm_asks (map (λ word. word.now) arguments.now) }
{
    optioned_search(ANY_OPTION, Beginning::Kept, arguments)
}

/// What `mcsolve` with these further words asks for.
fn mcsolve_asked<'a>(arguments: &[&'a [u8]]) -> Asked<'a>
    ensures { asks_shown result ≡ mcsolve_asks (map (λ word. word.now) arguments.now) }
{
    optioned_search(ANY_LIMIT, Beginning::Parts, arguments)
}

/// A file that is to hold this.
fn filed_asked(content: Content, file: &[u8]) -> Asked<'_>
    ensures { asks_shown result ≡ filed_asks content file.now }
{
    match content {
        Content::Certificate => Asked::Cert { file },
        Content::Model => Asked::Write { file },
        Content::Search => Asked::Save { file },
    }
}

/// What `cert F`, `write F` and `save F` ask for, with this word as F.
fn named_file(content: Content, file: &[u8]) -> Asked<'_>
    ensures { asks_shown result ≡ file_asks content (file.now ∷ []) }
{
    if is_file_name_word(file) {
        filed_asked(content, file)
    } else {
        Asked::Misused
    }
}

/// What `cert`, `write` or `save` with these further words asks for.
fn file_asked<'a>(content: Content, arguments: &[&'a [u8]]) -> Asked<'a>
    ensures { asks_shown result ≡ file_asks content (map (λ word. word.now) arguments.now) }
{
    match arguments {
        [file] => named_file(content, file),
        _ => Asked::Misused,
    }
}

/// What `cert` with these further words asks for.
fn cert_asked<'a>(arguments: &[&'a [u8]]) -> Asked<'a>
    ensures { asks_shown result ≡ cert_asks (map (λ word. word.now) arguments.now) }
{
    file_asked(Content::Certificate, arguments)
}

/// What `write` with these further words asks for.
fn write_asked<'a>(arguments: &[&'a [u8]]) -> Asked<'a>
    ensures { asks_shown result ≡ write_asks (map (λ word. word.now) arguments.now) }
{
    file_asked(Content::Model, arguments)
}

/// What `save` with these further words asks for.
fn save_asked<'a>(arguments: &[&'a [u8]]) -> Asked<'a>
    ensures { asks_shown result ≡ save_asks (map (λ word. word.now) arguments.now) }
{
    file_asked(Content::Search, arguments)
}

/// What `restore F` asks for, with this word as F.
fn named_restore(file: &[u8]) -> Asked<'_>
    ensures { asks_shown result ≡ restore_asks (file.now ∷ []) }
{
    if is_file_name_word(file) {
        Asked::Restore { file }
    } else {
        Asked::Misused
    }
}

/// What `restore` with these further words asks for.
fn restore_asked<'a>(arguments: &[&'a [u8]]) -> Asked<'a>
    ensures { asks_shown result ≡ restore_asks (map (λ word. word.now) arguments.now) }
{
    match arguments {
        [file] => named_restore(file),
        _ => Asked::Misused,
    }
}

/// What `depth D` asks for behind `trim`, with this word as D.
fn depth_named(number: &[u8]) -> Asked<'_>
    ensures { asks_shown result ≡ with_number number.now (whole_number_of number.now) Trim }
{
    match whole_number(number) {
        Some(depth) => Asked::Trim { depth },
        None => Asked::NoNumber { word: number },
    }
}

/// What `trim` with an option asks for.
fn deep_trim<'a>(key: &[u8], number: &'a [u8]) -> Asked<'a>
    ensures { asks_shown result ≡ trim_asks (key.now ∷ number.now ∷ []) }
{
    if is_word(b"depth", key) {
        depth_named(number)
    } else {
        Asked::Misused
    }
}

/// What `trim` with these further words asks for.
fn trim_asked<'a>(arguments: &[&'a [u8]]) -> Asked<'a>
    ensures { asks_shown result ≡ trim_asks (map (λ word. word.now) arguments.now) }
{
    match arguments {
        [] => Asked::Trim { depth: 0 },
        [key, number] => deep_trim(key, number),
        _ => Asked::Misused,
    }
}

/// What `quit` with these further words asks for.
fn quit_asked<'a>(arguments: &[&'a [u8]]) -> Asked<'a>
    ensures { asks_shown result ≡ quit_asks (map (λ word. word.now) arguments.now) }
{
    match arguments {
        [] => Asked::Quit,
        _ => Asked::Misused,
    }
}

/// What this command with these further words asks for.
fn command_asked<'a>(command: CommandName, arguments: &'a [&'a [u8]]) -> Asked<'a>
    ensures { asks_shown result ≡ known_asks command (map (λ word. word.now) arguments.now) }
{
    match command {
        CommandName::Load => load_asked(arguments),
        CommandName::Solve => solve_asked(arguments),
        CommandName::Warm => warm_asked(arguments),
        CommandName::McSolve => mcsolve_asked(arguments),
        CommandName::Edit => Asked::Edit { words: arguments },
        CommandName::Trim => trim_asked(arguments),
        CommandName::Save => save_asked(arguments),
        CommandName::Restore => restore_asked(arguments),
        CommandName::Bound(which, numbers) => Asked::Bound {
            which,
            numbers,
            words: arguments,
        },
        CommandName::Cert => cert_asked(arguments),
        CommandName::Write => write_asked(arguments),
        CommandName::Quit => quit_asked(arguments),
    }
}

/// What the words of a line ask for. A line that is answered has a word.
pub fn read_words<'a>(words: &'a [&'a [u8]]) -> Asked<'a>
    ensures asked { asks_shown result ≡ asks_of (map (λ word. word.now) words.now) }
    ensures askable { IsAskable (asks_shown result) }
{
    let [word, arguments @ ..] = words else {
        return Asked::Misused;
    };
    match command_named(word) {
        Some(command) => command_asked(command, arguments),
        None => Asked::Unknown { word },
    }
}
