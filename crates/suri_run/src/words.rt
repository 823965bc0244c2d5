//! The words of the command line, where they can be had.
ghost use Rattle.std.specs.Prelude.{◌≡◌, Err, MatchResult};
ghost use Rattle.std.specs.Vec.Iter.{into_iter_items};
ghost use Rattle.suri_run.specs.Words.{unheard};

use crate::cause::Cause;
use std::alloc::Global;
use std::env::Args;
use std::io;
use std::io::ErrorKind;

// The words in a list.
fn collect(alloc: Global, args: Args) -> Result<Vec<String>, Cause>
    ensures { MatchResult result (λ v. v.items ≡ into_iter_items args) (λ c. c ≡ Cause.NoMemory) }
{
    let mut words = Vec::new(alloc);
    for word in args {
        words.push(word)?;
    }
    Ok(words)
}

// Why there are no words.
fn refusal(fault: &io::Error) -> Cause
    ensures { result ≡ unheard fault.now }
{
    match fault.kind() {
        ErrorKind::OutOfMemory => Cause::NoMemory,
        _ => Cause::Words,
    }
}

/// The words of the command line, the program's name first.
///
/// # Errors
///
/// `NoMemory` where none was left for the words, and `Words` where one of them isn't UTF-8.
pub fn heard(alloc: Global, args: io::Result<Args>) -> Result<Vec<String>, Cause>
    ensures { MatchResult args
        (λ a. MatchResult result (λ v. v.items ≡ into_iter_items a) (λ c. c ≡ Cause.NoMemory))
        (λ e. result ≡ Err (unheard e)) }
{
    match args {
        Ok(args) => collect(alloc, args),
        Err(fault) => Err(refusal(&fault)),
    }
}
