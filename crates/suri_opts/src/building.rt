//! The command, as clap sees it.
ghost use Rattle.clap.specs.Words.{app_of, rule_of, with_rule};
ghost use Rattle.std.specs.Prelude.{◌≡◌, ◌≤ℤ◌, IfOk, false, pos, ℕ};
ghost use Rattle.suri_opts.specs.Words.{app_11, app_6, flag_rule, number_rule, suri_app};

use clap::{Arg, ArgAction, Command, value_parser};
use std::alloc::{AllocError, Global};

// An option with a number in these bounds.
fn number<'a>(alloc: Global, name: &'a str, least: i64, most: i64) -> Arg<'a>
    requires from { pos 0 ≤ℤ least }
    requires to { least ≤ℤ most }
    ensures rule { (a b : ℕ) → least ≡ pos a → most ≡ pos b
        → rule_of result ≡ number_rule name.entry.now a b }
    ensures local { result.global ≡ false }
{
    Arg::new(alloc, name)
        .long(name)
        .action(ArgAction::Set)
        .value_parser(value_parser!(u64).range(least..=most))
}

// An option with any number of 64 bits.
fn wide_number<'a>(alloc: Global, name: &'a str) -> Arg<'a>
    ensures rule { rule_of result ≡ number_rule name.entry.now 0 18446744073709551615 }
    ensures local { result.global ≡ false }
{
    Arg::new(alloc, name)
        .long(name)
        .action(ArgAction::Set)
        .value_parser(value_parser!(u64))
}

// A flag.
fn flag<'a>(alloc: Global, name: &'a str) -> Arg<'a>
    ensures rule { rule_of result ≡ flag_rule name.entry.now }
    ensures local { result.global ≡ false }
{
    Arg::new(alloc, name).long(name).action(ArgAction::SetTrue)
}

// A command with one argument more.
fn with<'a>(command: Command<'a>, arg: Arg<'a>) -> Result<Command<'a>, AllocError>
    requires { arg.global ≡ false }
    ensures { IfOk result (λ c. app_of c ≡ with_rule (app_of command.entry) (rule_of arg.entry)) }
{
    command.arg(arg)
}

// The command with the sizes of a run.
fn sizes<'a>(alloc: Global) -> Result<Command<'a>, AllocError>
    ensures { IfOk result (λ c. app_of c ≡ app_6) }
{
    let command = Command::new(alloc, "suri_run");
    let command = with(command, number(alloc, "workers", 1, 64))?;
    let command = with(command, number(alloc, "batch", 1, 256))?;
    let command = with(command, number(alloc, "round", 1, 65_536))?;
    let command = with(command, number(alloc, "rows", 1, 4_096))?;
    let command = with(command, number(alloc, "memcap", 1, 1_048_576))?;
    with(command, number(alloc, "prealloc", 0, 1_048_576))
}

// The command with all options of a run, whatever capture it is over.
fn options_of_runs<'a>(alloc: Global) -> Result<Command<'a>, AllocError>
    ensures { IfOk result (λ c. app_of c ≡ app_11) }
{
    let command = sizes(alloc)?;
    let command = with(command, number(alloc, "segments", 0, 1_048_576))?;
    let command = with(command, number(alloc, "depth", 0, 1_073_741_824))?;
    let command = with(command, number(alloc, "recovery", 1, 100))?;
    let command = with(command, number(alloc, "seed", 0, 65_535))?;
    with(command, flag(alloc, "netflow"))
}

/// The whole command.
pub fn command<'a>(alloc: Global) -> Result<Command<'a>, AllocError>
    ensures { IfOk result (λ c. app_of c ≡ suri_app) }
{
    let command = options_of_runs(alloc)?;
    let command = with(command, wide_number(alloc, "generate"))?;
    let command = with(command, number(alloc, "frames", 1, 1_000_000))?;
    with(command, flag(alloc, "audit"))
}
