//! The reading of words.
ghost use Rattle.clap.specs.Words.{first_of, first_value, found_of, kind_of, one_text, rows_of};
ghost use Rattle.std.specs.Prelude.{
  ◌≡◌,
  ◌≢◌,
  ◌≤◌,
  ◌<◌,
  ◌⊎◌,
  ◌&&◌,
  [],
  Decides,
  Err,
  IfErr,
  IfOk,
  codes,
  is_some,
  map,
  string_bytes,
  ℕ,
};
ghost use Rattle.suri_opts.specs.Words.{
  AreApart,
  AreChoices,
  ArePaired,
  AreSizes,
  Chooses,
  GoTogether,
  IsChoice,
  IsNumberIn,
  IsNumberOf,
  IsWideChoice,
  faults,
  found,
  generates,
  given,
  is_given,
  is_set,
  within_bounds,
};
ghost use Rattle.suri_opts.specs.declared.types.Options.{Options};

use crate::building::command;
use crate::types::{Options, WordFault};
use clap::error::ErrorKind;
use clap::{ArgMatches, Error};
use std::alloc::Global;
use suri_base::Layout;

// The number of an option, as clap reads its text.
fn number_read(matches: &ArgMatches<'_>, id: &str) -> Option<u32>
    ensures { IsNumberOf (one_text (found_of matches.now) id.now) result }
{
    matches.get_one::<u32>(id)
}

// The same for a number of 64 bits.
fn wide_number_read(matches: &ArgMatches<'_>, id: &str) -> Option<u64>
    ensures { IsNumberIn 64 (one_text (found_of matches.now) id.now) result }
{
    matches.get_one::<u64>(id)
}

// The number of an option, where one was given.
fn number_given(matches: &ArgMatches<'_>, id: &str) -> Option<u32>
    ensures { IsNumberOf (given id.now (rows_of (found_of matches.now))) result }
{
    number_read(matches, id)
}

// The same for a number of 64 bits.
fn wide_number_given(matches: &ArgMatches<'_>, id: &str) -> Option<u64>
    ensures { IsNumberIn 64 (given id.now (rows_of (found_of matches.now))) result }
{
    wide_number_read(matches, id)
}

// Whether an option has a text.
fn has_text(matches: &ArgMatches<'_>, id: &str) -> bool
    ensures { result ≡ is_some (first_value (found_of matches.now) id.now) }
{
    matches.get_str(id).is_some()
}

// Whether an option is given.
fn is_given(matches: &ArgMatches<'_>, id: &str) -> bool
    ensures { result ≡ is_given id.now (rows_of (found_of matches.now)) }
{
    has_text(matches, id)
}

// Whether the text of a flag says that it is set.
fn flag_read(matches: &ArgMatches<'_>, id: &str) -> bool
    ensures { result ≡ is_set (first_value (found_of matches.now) id.now) }
{
    match matches.get_str(id) {
        None => false,
        Some(text) => text == "true",
    }
}

// Whether a flag is set.
fn flag_given(matches: &ArgMatches<'_>, id: &str) -> bool
    ensures { result ≡ is_set (first_of id.now (rows_of (found_of matches.now))) }
{
    flag_read(matches, id)
}

// The number in its bounds, or the default.
fn bounded(given: Option<u32>, least: u32, most: u32, default: u32) -> u32
    requires low { least ≤ default }
    requires high { default ≤ most }
    ensures value { result ≡ within_bounds least most default given }
    ensures from { least ≤ result }
    ensures to { result ≤ most }
{
    match given {
        None => default,
        Some(number) => least.max(most.min(number)),
    }
}

// The number of an option, or its default.
fn choice(matches: &ArgMatches<'_>, id: &str, least: u32, most: u32, default: u32) -> u32
    requires low { least ≤ default }
    requires high { default ≤ most }
    ensures value { IsChoice least most default (given id.now (rows_of (found_of matches.now))) result }
    ensures from { least ≤ result }
    ensures to { result ≤ most }
{
    bounded(number_given(matches, id), least, most, default)
}

// The number of 64 bits of an option, or 0.
fn wide_choice(matches: &ArgMatches<'_>, id: &str) -> u64
    ensures { IsWideChoice (given id.now (rows_of (found_of matches.now))) result }
{
    wide_number_given(matches, id).unwrap_or(0)
}

// Whether both options of a generated capture are given.
fn are_both_given(matches: &ArgMatches<'_>) -> bool
    ensures { result ≡ (is_given (codes "generate") (rows_of (found_of matches.now))
        && is_given (codes "frames") (rows_of (found_of matches.now))) }
{
    is_given(matches, "generate") && is_given(matches, "frames")
}

// Which capture is to be generated, where one is.
fn generated(matches: &ArgMatches<'_>) -> Option<(u64, u32)>
    ensures { (seed frames : ℕ) × IsWideChoice (given (codes "generate") (rows_of (found_of matches.now))) seed
        × IsChoice 1 1000000 1 (given (codes "frames") (rows_of (found_of matches.now))) frames
        × (result ≡ generates (rows_of (found_of matches.now)) seed frames) }
{
    let seed = wide_choice(matches, "generate");
    let frames = choice(matches, "frames", 1, 1_000_000, 1);
    if are_both_given(matches) {
        Some((seed, frames))
    } else {
        None
    }
}

// Whether both options of a generated capture are given, or neither is.
fn are_paired(matches: &ArgMatches<'_>) -> bool
    ensures { Decides result (ArePaired (rows_of (found_of matches.now))) }
{
    is_given(matches, "generate") == is_given(matches, "frames")
}

// Whether a capture is generated and its audit asked for: not both.
fn are_apart(matches: &ArgMatches<'_>) -> bool
    ensures { Decides result (AreApart (rows_of (found_of matches.now))) }
{
    !(is_given(matches, "generate") && flag_given(matches, "audit"))
}

// Whether what is given goes together.
fn go_together(matches: &ArgMatches<'_>) -> bool
    ensures { Decides result (GoTogether (rows_of (found_of matches.now))) }
{
    are_paired(matches) && are_apart(matches)
}

// How the run is to be laid out.
fn sizes(matches: &ArgMatches<'_>) -> Layout
    ensures { AreSizes (rows_of (found_of matches.now)) result }
{
    Layout {
        workers: choice(matches, "workers", 1, 64, 4),
        batch: choice(matches, "batch", 1, 256, 32),
        round: choice(matches, "round", 1, 65_536, 4_096),
        rows: choice(matches, "rows", 1, 4_096, 1_024),
        memcap: choice(matches, "memcap", 1, 1_048_576, 65_536),
        segments: choice(matches, "segments", 0, 1_048_576, 65_536),
        recovery: choice(matches, "recovery", 1, 100, 30),
        depth: choice(matches, "depth", 0, 1_073_741_824, 1_048_576),
    }
}

// All choices.
fn chosen(matches: &ArgMatches<'_>) -> Options
    ensures { AreChoices (rows_of (found_of matches.now)) result }
{
    let layout = sizes(matches);
    let prealloc = choice(matches, "prealloc", 0, 1_048_576, 1_000);
    let seed = choice(matches, "seed", 0, 65_535, 0);
    Options {
        layout,
        prealloc: prealloc.min(layout.memcap),
        seed: seed as u16,
        netflow: flag_given(matches, "netflow"),
        audit: flag_given(matches, "audit"),
        generate: generated(matches),
    }
}

// A fault of clap's as one of ours.
fn word_fault(error: &Error) -> WordFault
    ensures refused { result ≡ WordFault.Refused → kind_of error.now ≢ ErrorKind.OutOfMemory }
    ensures kind { (result ≡ WordFault.Refused) ⊎ (result ≡ WordFault.NoMemory) }
{
    match error.kind() {
        ErrorKind::OutOfMemory => WordFault::NoMemory,
        _ => WordFault::Refused,
    }
}

// Reads the words, whether or not the choices fit together. It tells with them whether the options that were given go
// together.
fn read(alloc: Global, words: &[String]) -> Result<(Options, bool), WordFault>
    ensures refused { result ≡ Err WordFault.Refused → faults (map string_bytes words.now) ≢ [] }
    ensures chosen { IfOk result (λ r. Chooses (map string_bytes words.now) r.0) }
    ensures together { IfOk result (λ r. Decides r.1 (GoTogether (found (map string_bytes words.now)))) }
    ensures kind { IfErr result (λ e. (e ≡ WordFault.Refused) ⊎ (e ≡ WordFault.NoMemory)) }
{
    let suri = command(alloc)?;
    match suri.try_get_matches_from(words) {
        Ok(matches) => Ok((chosen(&matches), go_together(&matches))),
        Err(error) => Err(word_fault(&error)),
    }
}

/// Reads the words of the command line, the program's name first.
///
/// The options are those of the table in README, each at most once. A number is decimal digits, with or without a
/// leading plus sign and leading zeros, as clap reads them.
///
/// # Errors
///
/// `Refused` where clap refuses the words, a word that asks for help among them; else `Rows` where the rows exceed
/// `memcap`, defaults included; else `Pair` where one of `--generate` and `--frames` stands without the other, or
/// `--generate` stands with `--audit`.
/// `NoMemory` where there is none to read the words.
pub fn options(alloc: Global, words: &[String]) -> Result<Options, WordFault>
    // Words are refused where the command finds a fault in them.
    ensures refused { result ≡ Err WordFault.Refused → faults (map string_bytes words.now) ≢ [] }
    // They are taken where it finds none, the rows are at most the flows, and a generated capture has its seed and its number of frames and no audit.
    ensures chosen { IfOk result (λ o. Chooses (map string_bytes words.now) o × (o.layout.rows ≤ o.layout.memcap)
        × GoTogether (found (map string_bytes words.now))) }
    // Where it finds none and the rows exceed the flows, both numbers are told.
    ensures rows { (rows memcap : ℕ) → result ≡ Err (WordFault.Rows rows memcap)
        → (o : Options) × Chooses (map string_bytes words.now) o
        × (o.layout.rows ≡ rows) × (o.layout.memcap ≡ memcap) × (memcap < rows) }
    // Where neither is so, and one of the two numbers of a generated capture stands without the other or the audit with its seed, they are
    // refused too.
    ensures pair { result ≡ Err WordFault.Pair
        → (o : Options) × Chooses (map string_bytes words.now) o × (o.layout.rows ≤ o.layout.memcap) × ¬ GoTogether (found (map string_bytes words.now)) }
{
    let (options, together) = read(alloc, words)?;
    let layout = options.layout;
    if layout.rows > layout.memcap {
        return Err(WordFault::Rows {
            rows: layout.rows,
            memcap: layout.memcap,
        });
    }
    if !together {
        return Err(WordFault::Pair);
    }
    Ok(options)
}
