//! A packet is closed.
ghost use Rattle.std.specs.Prelude.{◌≡◌, ◌<◌, [], OnOk, length};
ghost use Rattle.flow_worker.specs.Places.{is_closing, to_closing};
ghost use Rattle.flow_worker.specs.Looking.{IsVerdict};
ghost use Rattle.flow_worker.specs.Standing.{Goes, MayGo};
ghost use Rattle.role_steps.specs.Roles.{IsShared, setup_of};
ghost use Rattle.run_rules.specs.Setup.{bucket_for};

use crate::look::keep;
use flow_bucket::{BucketCall, BucketReply};
use role_steps::{Shared, Worker, call_bucket, give_back};
use std::sync::Wait;
use suri_base::{App, NoMemory};

/// Closes a packet, with the verdict on it. Nodes that come back are given back at once.
///
/// # Errors
///
/// `NoMemory`.
pub(crate) fn close<'c, R: Wait>(
    rt: &R,
    worker: &mut Worker<'c>,
    shared: &Shared<'c>,
    at: usize,
    no: u32,
    app: App,
) -> Result<(), NoMemory>
    requires shared { IsShared shared.now }
    requires at { (at < length shared.now.buckets.items) × (at ≡ bucket_for (setup_of shared.now) no) }
    requires verdict { IsVerdict shared.now worker.old at no app }
    requires stands { MayGo shared.now worker.old (is_closing no) }
    ensures { OnOk result (Goes shared.now worker.old worker.new (is_closing no) to_closing []) }
{
    match call_bucket(
        rt,
        &mut worker.passes,
        shared,
        at,
        BucketCall::Close { no, app },
    )? {
        BucketReply::Closed {
            run: _,
            freed,
            ended,
        } => {
            keep(&mut worker.hand, ended)?;
            give_back(rt, &mut worker.passes, shared, freed)?;
            Ok(())
        }
        BucketReply::Idle => Ok(()),
        _ => unreachable!(),
    }
}
