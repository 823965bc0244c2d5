//! The bytes of the capture over which a run goes.
ghost use Rattle.clap.specs.Words.{Text};
ghost use Rattle.capture_gen.specs.Capture.{generated};
ghost use Rattle.std.specs.Prelude.{◌≡◌, ◌≤◌, Err, IfErr, IfOk, IfSome, IsSome, List, None, OnOk, vec_len};
ghost use Rattle.suri_run.specs.Run.{Ended, IsAbout, LacksBytes, LeftNothing, MayGenerate, SinkSeen, StopsReading, Takes, WasRead};

use crate::cause::Cause;
use capture_gen::generate;
use std::alloc::Global;
use suri_opts::Options;
use suri_outside::{Source, Unread, read_whole};

// The most bytes of a capture.
const MAX_BYTES: usize = 1_073_741_824;

// The bytes of a generated capture.
fn generated_bytes(alloc: Global, seed: u64, frames: u32) -> Result<Vec<u8>, Cause>
    requires { (1 ≤ frames) × (frames ≤ 1000000) }
    ensures value { IfOk result (λ v. v.items ≡ generated seed frames) }
    ensures small { IfOk result (λ v. vec_len v ≤ 1073741824) }
    ensures refused { IfErr result (λ c. c ≡ Cause.NoMemory) }
{
    Ok(generate(alloc, seed, frames)?)
}

// The bytes that the source has left.
fn read_bytes<S: Source>(alloc: Global, source: &mut S) -> Result<Vec<u8>, Cause>
    ensures whole { IfOk result (λ v. IfSome (S.left source.old) (λ bytes. v.items ≡ bytes)) }
    ensures read { OnOk result (WasRead (record { left = S.left source.old; rest = S.left source.new; before = S.faults source.old; after = S.faults source.new })) }
    ensures small { IfOk result (λ v. vec_len v ≤ 1073741824) }
    ensures stops { StopsReading (record { left = S.left source.old; rest = S.left source.new; before = S.faults source.old; after = S.faults source.new }) }
    ensures refused { IfErr result (LacksBytes (record { left = S.left source.old; rest = S.left source.new; before = S.faults source.old; after = S.faults source.new })) }
{
    match read_whole(alloc, source, MAX_BYTES) {
        Ok(bytes) => Ok(bytes),
        Err(Unread::Failed) => Err(Cause::ReadFault),
        Err(Unread::Above) => Err(Cause::ManyBytes),
        Err(Unread::NoMemory) => Err(Cause::NoMemory),
    }
}

/// The bytes of the capture: where one is asked for it is generated, and the source isn't touched; else the source is read to its
/// end.
pub fn capture_bytes<S: Source>(
    alloc: Global,
    source: &mut S,
    options: &Options,
) -> Result<Vec<u8>, Cause>
    requires { MayGenerate options.now.generate }
    ensures about { IfOk result (λ v. IsAbout options.now
        (record { left = S.left source.old; rest = S.left source.new; before = S.faults source.old; after = S.faults source.new }) v.items) }
    ensures stops { StopsReading (record { left = S.left source.old; rest = S.left source.new; before = S.faults source.old; after = S.faults source.new }) }
    // Where there are no bytes, nothing is written.
    ensures ends { IfErr result (λ c. (words : List Text) (k : SinkSeen) → Takes words options.now → LeftNothing None k → Ended (Err c) None words
        (record { left = S.left source.old; rest = S.left source.new; before = S.faults source.old; after = S.faults source.new }) k) }
    ensures untouched { IsSome options.now.generate → source.new ≡ source.old }
{
    match options.generate {
        Some((seed, frames)) => generated_bytes(alloc, seed, frames),
        None => read_bytes(alloc, source),
    }
}
