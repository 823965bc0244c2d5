//! The digest of a stream. Most streams have no byte, and then nothing is digested.
ghost use Rattle.std.specs.Prelude.{◌≡◌, ℕ, List, [], length};
ghost use Rattle.sha1.specs.Sha1.{Holds, sha1};

use sha1::{DIGEST_LEN, Sha1};
use std::mem;

// The SHA-1 digest of no byte (FIPS 180-4).
const NO_BYTES: [u8; DIGEST_LEN] = [
    0xda, 0x39, 0xa3, 0xee, 0x5e, 0x6b, 0x4b, 0x0d, 0x32, 0x55, 0xbf, 0xef, 0x95, 0x60, 0x18, 0x90,
    0xaf, 0xd8, 0x07, 0x09,
];

// The digest of no byte.
fn of_no_bytes() -> [u8; DIGEST_LEN]
    ensures { result ≡ sha1 [] }
{
    NO_BYTES
}

/// Takes the digest of the bytes that a hasher holds, of which there are so many. Afterwards it holds none.
pub(crate) fn take_digest(hasher: &mut Sha1, many: u32) -> [u8; DIGEST_LEN]
    ensures digest { (m : List ℕ) → Holds hasher.old m → length m ≡ many → result ≡ sha1 m }
    ensures blank { (many ≡ 0 → Holds hasher.old []) → Holds hasher.new [] }
{
    if many == 0 {
        of_no_bytes()
    } else {
        mem::replace(hasher, Sha1::new()).finalize()
    }
}
