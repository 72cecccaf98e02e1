// The words of the command line.
ghost use Rattle.std.specs.Prelude.{◌≡◌, ◌<◌, [], length, IfOk, IfErr, IsErr, vec_len};
ghost use Rattle.std.specs.IoError.{error_kind};
ghost use Rattle.std.specs.Vec.Iter.{into_iter_items};
ghost use Rattle.std.specs.declared.io.ErrorKind.TheVariants.{OutOfMemory};
ghost use Rattle.program_words.specs.Forms.{IsNameAlone};

use std::alloc::{AllocError, Global};
use std::env::Args;
use std::io;
use std::io::ErrorKind;

/// The words that were read, or none where they are no text.
fn words_in(alloc: Global, read: io::Result<Args>) -> Result<Vec<String>, AllocError>
    ensures given { IfOk read (λ arguments. IfOk result (λ words. words.items ≡ into_iter_items arguments)) }
    ensures none { IfErr read (λ _. IfOk result (λ words. words.items ≡ [])) }
    ensures memory { IfErr read (λ error. error_kind error ≡ OutOfMemory → IsErr result) }
{
    match read {
        Ok(arguments) => arguments.collect(alloc),
        Err(error) if error.kind() == ErrorKind::OutOfMemory => Err(AllocError),
        Err(_) => Ok(Vec::new(alloc)),
    }
}

/// The words, or the program's name where there are none.
fn with_name(alloc: Global, mut words: Vec<String>) -> Result<Vec<String>, AllocError>
    ensures named { IfOk result (λ named. 0 < vec_len named) }
    ensures kept { 0 < length words.items → IfOk result (λ named. named.items ≡ words.items) }
    ensures alone { words.items ≡ [] → IfOk result (λ named. IsNameAlone named.items) }
{
    if words.is_empty() {
        words.push(String::from_str(alloc, "symphony")?)?;
    }
    Ok(words)
}

/// The words that were read, or the program's name alone where there are none, or where they are no text.
///
/// # Errors
///
/// Where there is no memory for them.
pub fn words_of(alloc: Global, read: io::Result<Args>) -> Result<Vec<String>, AllocError>
    ensures named { IfOk result (λ words. 0 < vec_len words) }
    ensures given { IfOk read (λ arguments. 0 < length (into_iter_items arguments) → IfOk result (λ words. words.items ≡ into_iter_items arguments)) }
    ensures alone { IfOk read (λ arguments. into_iter_items arguments ≡ [] → IfOk result (λ words. IsNameAlone words.items)) }
    ensures unread { IfErr read (λ _. IfOk result (λ words. IsNameAlone words.items)) }
    ensures memory { IfErr read (λ error. error_kind error ≡ OutOfMemory → IsErr result) }
{
    let words = words_in(alloc, read)?;
    with_name(alloc, words)
}
