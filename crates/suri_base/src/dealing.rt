//! How frames are dealt out to rounds, and keys to workers and buckets.
ghost use Rattle.std.specs.Prelude.{◌≡◌, ◌<◌, ◌≤◌};
ghost use Rattle.suri_base.specs.Dealing as dealt;

use crate::fnv::hash;
use crate::key::Key;

/// The round of the frame of this number, where each round has `round` frames. Frames are counted from 1, rounds from 0.
pub fn round_of(no: u32, round: u32) -> u32
    requires { (1 ≤ no) × (1 ≤ round) }
    ensures { result ≡ dealt.round_of no round }
{
    (no - 1) / round
}

/// The bucket of a key among `rows`, from 0 (this project's own rule over the key's hash).
pub fn bucket_of(key: &Key, rows: u32) -> u32
    requires { 1 ≤ rows }
    ensures value { result ≡ dealt.bucket_of key.now rows }
    ensures within { result < rows }
{
    hash(key) / 256 % rows
}

/// The worker of a key among `workers`, from 0 (this project's own rule over the key's hash).
pub fn worker_of(key: &Key, workers: u32) -> u32
    requires { 1 ≤ workers }
    ensures value { result ≡ dealt.worker_of key.now workers }
    ensures within { result < workers }
{
    hash(key) % workers
}
