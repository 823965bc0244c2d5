//! Where a key stands in the order of keys.
ghost use Rattle.std.specs.Prelude.{◌≡◌};
ghost use Rattle.std.specs.Ordering.{is_eq};
ghost use Rattle.suri_base.specs.declared.key.Key.{Key};
ghost use Rattle.suri_base.specs.Keys.{same_key};
ghost use Rattle.key_order.specs.KeyPlaces.{address_of, place_cmp, place_of};
ghost use Rattle.key_order.specs.declared.places.KeyPlace as Place;

use suri_base::Key;

/// An address in four parts, so that it may stand at each fourth byte. The low end comes first, since it differs
/// most often: of an IPv4 address the other parts are 0.
#[derive(Clone, Copy, Debug, PartialEq, Eq, PartialOrd, Ord)]
pub struct Address {
    pub low: u32,
    pub lower: u32,
    pub upper: u32,
    pub high: u32,
}

/// The fields of a key, those first that differ most often between the flows of a host, in the order in which keys are
/// compared: 48 bytes.
#[derive(Clone, Copy, Debug, PartialEq, Eq, PartialOrd, Ord)]
pub struct KeyPlace {
    pub b_port: u16,
    pub a_port: u16,
    pub a: Address,
    pub b: Address,
    pub first: u16,
    pub second: u16,
    pub third: u16,
    pub count: u8,
    pub proto: u8,
    pub version: u8,
    pub one_way: bool,
}

impl Address {
    // The parts of an address.
    fn new(addr: u128) -> Address
        ensures { result ≡ address_of addr }
    {
        Address {
            low: (addr % (1 << 32)) as u32,
            lower: ((addr >> 32) % (1 << 32)) as u32,
            upper: ((addr >> 64) % (1 << 32)) as u32,
            high: (addr >> 96) as u32,
        }
    }
}

/// Where a key stands.
pub fn place(key: &Key) -> KeyPlace
    ensures { result ≡ place_of key.now }
{
    KeyPlace {
        b_port: key.b.port,
        a_port: key.a.port,
        a: Address::new(key.a.addr),
        b: Address::new(key.b.addr),
        first: key.vlans.first,
        second: key.vlans.second,
        third: key.vlans.third,
        count: key.vlans.count,
        proto: key.proto,
        version: key.version,
        one_way: key.one_way,
    }
}

/// Two keys stand in one place just where they are one. It does nothing.
pub fn tells_keys()
    ensures keys { (k l : Key) → is_eq (place_cmp (place_of k) (place_of l)) ≡ same_key k l }
    ensures order { (x y : Place.KeyPlace) → ⟦<KeyPlace as Ord>⟧.cmp x y ≡ place_cmp x y }
{}
