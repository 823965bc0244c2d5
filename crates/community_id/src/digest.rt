//! The SHA-1 under a Community ID.
ghost use Rattle.std.specs.Prelude.{◌≡◌, ◌^◌, ◌<◌, ◌++◌, List, ℕ};
ghost use Rattle.community_id.specs.Community.{address_bytes, community_bytes, port_bytes};
ghost use Rattle.sha1.specs.Sha1.{Holds, sha1};

use sha1::Sha1;
use suri_base::Key;
use suri_base::protocol::IPV4;

// Takes in an address: 4 bytes of IPv4, or 16 bytes of IPv6.
fn take_address(hasher: &mut Sha1, version: u8, address: u128)
    requires { version ≡ 4 → address < 2 ^ 32 }
    ensures { (m : List ℕ) → Holds hasher.old m → Holds hasher.new (m ++ address_bytes version address) }
{
    if version == IPV4 {
        hasher.update(&(address as u32).to_be_bytes());
    } else {
        hasher.update(&address.to_be_bytes());
    }
}

// Takes in a port.
fn take_port(hasher: &mut Sha1, port: u16)
    ensures { (m : List ℕ) → Holds hasher.old m → Holds hasher.new (m ++ port_bytes port) }
{
    hasher.update(&port.to_be_bytes());
}

/// The digest of what a key and a seed are written as.
pub fn digest(key: &Key, seed: u16) -> [u8; 20]
    requires { key.now.version ≡ 4 → (key.now.a.addr < 2 ^ 32) × (key.now.b.addr < 2 ^ 32) }
    ensures { result ≡ sha1 (community_bytes key.now seed) }
{
    let mut hasher = Sha1::new();
    hasher.update(&seed.to_be_bytes());
    take_address(&mut hasher, key.version, key.a.addr);
    take_address(&mut hasher, key.version, key.b.addr);
    hasher.update(&[key.proto, 0]);
    take_port(&mut hasher, key.a.port);
    take_port(&mut hasher, key.b.port);
    hasher.finalize()
}
