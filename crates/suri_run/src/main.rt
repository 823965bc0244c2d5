//! Reads a capture from standard input, or makes one from a number, runs the engine over it, and writes its flow lines, netflow
//! lines where they are asked for, its stats line and, where an audit is asked for, its trail to standard output; of a capture that it
//! made, one summary line.
#![tactic(auto)]

mod capture;
mod cause;
mod notes;
mod ran;
mod report;
mod serve;
mod summing;
#[cfg(test)]
mod test_audit;
#[cfg(test)]
mod test_frames;
#[cfg(test)]
mod test_generated;
#[cfg(test)]
mod test_hostile;
#[cfg(test)]
mod test_limits;
#[cfg(test)]
mod test_options;
#[cfg(test)]
mod test_runs;
#[cfg(test)]
mod test_streams;
#[cfg(test)]
mod test_texts;
#[cfg(test)]
mod tests;
mod top;
mod words;
mod writing;

use std::env;
use std::process::ExitCode;
use suri_outside::{OpenGate, StdSink, StdSource};
use top::run_args;

fn main(rt: HostRuntime) -> ExitCode {
    let mut source = StdSource::new(rt.stdin());
    let mut sink = StdSink::new(rt.stdout());
    let mut notes = StdSink::new(rt.stderr());
    let args = env::args(&rt);
    ExitCode::from(
        run_args(
            &rt,
            rt.alloc(),
            args,
            &mut source,
            &mut sink,
            &mut notes,
            &OpenGate,
        )
        .status,
    )
}
