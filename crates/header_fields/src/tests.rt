//! Fields of a header in which every byte differs from every other.
use crate::{address_at, half_at, word_at};
use std::test::Fail;

#[test]
fn reads_in_network_order(rt: HostRuntime) -> Result<(), Fail> {
    let bytes: [u8; 20] = [
        0x01, 0x23, 0x45, 0x67, 0x89, 0xab, 0xcd, 0xef, 0x10, 0x32, 0x54, 0x76, 0x98, 0xba, 0xdc,
        0xfe, 0x80, 0x7f, 0x11, 0xee,
    ];
    assert_eq!(rt; half_at(&bytes, 0), 0x0123);
    assert_eq!(rt; half_at(&bytes, 18), 0x11ee);
    assert_eq!(rt; word_at(&bytes, 3), 0x6789_abcd);
    assert_eq!(rt;
        address_at(&bytes, 4),
        0x89ab_cdef_1032_5476_98ba_dcfe_807f_11ee
    );
    Ok(())
}
