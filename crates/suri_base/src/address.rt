//! Addresses in halves.
ghost use Rattle.std.specs.Prelude.{◌≡◌};
ghost use Rattle.suri_base.specs.Slot.{address_of, halved};

// The numbers of 64 bits, of which an address has two.
const HALF: u128 = 1 << 64;

/// An address in two halves, so that what holds one is aligned to 8 bytes and not to 16.
#[derive(Clone, Copy, Debug)]
pub struct Address {
    high: u64,
    low: u64,
}

impl Address {
    /// The halves of an address.
    #[inline(always)]
    pub fn of(number: u128) -> Address
        ensures { result ≡ halved number }
    {
        Address {
            high: (number / HALF) as u64,
            low: (number % HALF) as u64,
        }
    }

    /// The whole address.
    #[inline(always)]
    pub fn number(&self) -> u128
        ensures { result ≡ address_of self.now }
    {
        u128::from(self.high) * HALF + u128::from(self.low)
    }
}
