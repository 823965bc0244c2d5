//! From the bytes of a packet to what its IP header says.
ghost use Rattle.std.specs.Prelude.{◌≡◌, ◌+◌, ◌^◌, ◌<◌, ◌≤◌, ◌⊎◌, IfOk, length};
ghost use Rattle.ip_decode.specs.Ip.{ip_of};
ghost use Rattle.ip_decode.specs.Spelled4.{ReadsIpv4};
ghost use Rattle.ip_decode.specs.Spelled6.{ReadsIpv6};

use crate::ipv4::read_ipv4;
use crate::ipv6::read_ipv6;
use crate::view::IpView;
use suri_base::Counter;

/// Reads the IP header of a packet, which the link layer says is of this version.
///
/// Places are counted from the first of the bytes. What stands behind the packet's stated length is
/// padding and no payload. A length of 0, total (IPv4) or of the payload (IPv6), is taken to mean all
/// bytes, since a sender may leave it to its network card (this project's own reading).
///
/// # Errors
///
/// The first counter that applies: `IpSmall`, `IpVersion`, `IpHeader` (IPv4), `IpSmall` once more
/// where the options are cut off, `Fragment` and `IpExtensions`.
pub fn ip(bytes: &[u8], version: u8) -> Result<IpView, Counter>
    requires version { (version ≡ 4) ⊎ (version ≡ 6) }
    requires small { length bytes.now < 2 ^ 32 }
    // It is what the header says, or the first counter that applies.
    ensures view { result ≡ ip_of version bytes.now }
    // A packet that is spelled from fields, with options or extension headers before its payload and padding behind it,
    // is read as just those fields.
    ensures ipv4 { version ≡ 4 → ReadsIpv4 bytes.now result }
    ensures ipv6 { version ≡ 6 → ReadsIpv6 bytes.now result }
    // The version is the one that was asked for.
    ensures version { IfOk result (λ v. v.version ≡ version) }
    // The payload lies in the bytes, and is no longer than stated.
    ensures inside { IfOk result (λ v. v.pay_at + v.pay_len ≤ length bytes.now) }
    ensures stated { IfOk result (λ v. v.pay_len ≤ v.stated) }
    // The addresses of version 4 have 32 bits.
    ensures addresses { IfOk result (λ v. v.version ≡ 4 → (v.src < 2 ^ 32) × (v.dst < 2 ^ 32)) }
{
    if version == 4 {
        read_ipv4(bytes)
    } else {
        read_ipv6(bytes)
    }
}
