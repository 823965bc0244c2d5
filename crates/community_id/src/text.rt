//! The text of a Community ID.
ghost use Rattle.std.specs.Prelude.{◌≡◌, ◌^◌, ◌<◌, ◌⊎◌, IfOk, string_bytes};
ghost use Rattle.community_id.specs.Community.{community_bytes, community_text};

use crate::digest::digest;
use base64::engine::general_purpose::STANDARD;
use std::alloc::Global;
use suri_base::{Key, NoMemory};

// The version's mark, with which a text begins.
const MARK: &str = "1:";

// The length of a text: the mark, and four characters for each three of twenty bytes.
const TEXT_LEN: usize = 30;

/// The Community ID of a key under a seed, which all tools that compare their texts have to share.
///
/// It is `1:` and the standard base64 with padding (RFC 4648, section 4) of the SHA-1 (FIPS 180-4) of
/// these bytes: the seed, the address of `a`, that of `b` (4 bytes each for IPv4, 16 for IPv6), the
/// protocol, a zero byte, the port of `a` and that of `b`, in network order. VLAN tags are left out. For
/// TCP and UDP, whose keys have the lesser end as `a`, it is Community ID version 1. For other protocols
/// it is this project's own form, and says nothing of the texts of other programs.
///
/// # Errors
///
/// `NoMemory` where there is none for the text.
pub fn community(alloc: Global, key: &Key, seed: u16) -> Result<String, NoMemory>
    requires version { (key.now.version ≡ 4) ⊎ (key.now.version ≡ 6) }
    requires addresses { key.now.version ≡ 4 → (key.now.a.addr < 2 ^ 32) × (key.now.b.addr < 2 ^ 32) }
    ensures { IfOk result (λ text. string_bytes text ≡ community_text (community_bytes key.now seed)) }
{
    let mut text = String::with_capacity(alloc, TEXT_LEN)?;
    text.push_str(MARK)?;
    STANDARD.encode_string(&digest(key, seed), &mut text)?;
    Ok(text)
}
