// Headers as bytes, well formed and not.
use crate::sample::block;
use std::process::Abort;
use std::test::Fail;
use store::header::Header;

const TEN: [u8; 8] = [0xB1, 0x0C, 0x10, 0x09, 0x08, 0x00, 0x30, 0x09];

const MOST: [u8; 7] = [0xB1, 0x0C, 0x1F, 0xFF, 0x04, 0xFF, 0xF0];

// Headers with one thing wrong, and what it is.
const NOT_WELL_FORMED: [([u8; 8], &str); 10] = [
    (
        [0xB0, 0x0C, 0x10, 0x09, 0x08, 0x00, 0x30, 0x09],
        "mark, first byte",
    ),
    (
        [0xB1, 0x0D, 0x10, 0x09, 0x08, 0x00, 0x30, 0x09],
        "mark, second byte",
    ),
    ([0xB1, 0x0C, 0x20, 0x09, 0x08, 0x00, 0x30, 0x09], "layout 2"),
    ([0xB1, 0x0C, 0x00, 0x09, 0x08, 0x00, 0x30, 0x09], "layout 0"),
    ([0xB1, 0x0C, 0x10, 0x09, 0x84, 0x00, 0x00, 0x00], "count 33"),
    (
        [0xB1, 0x0C, 0x10, 0x09, 0x09, 0x00, 0x30, 0x09],
        "a one in the zero bits",
    ),
    (
        [0xB1, 0x0C, 0x10, 0x09, 0x0A, 0x00, 0x30, 0x09],
        "the other zero bit",
    ),
    (
        [0xB1, 0x0C, 0x10, 0x09, 0x04, 0x00, 0x30, 0x09],
        "a field set past count",
    ),
    (
        [0xB1, 0x0C, 0x10, 0x09, 0x08, 0x00, 0x30, 0x0A],
        "an address equal to N",
    ),
    ([0, 0, 0, 0, 0, 0, 0, 0], "zeros"),
];

// The two ways round, byte for byte.
fn stands(rt: &impl Abort, front: &[u8], n: u16, log: &[u16]) -> Result<(), Fail> {
    let bytes = block(front);
    let header = Header::unpack(&bytes).ok_or("not well formed")?;
    assert_eq!(rt; header.n(), n);
    assert!(rt; header.log() == log);
    assert!(rt; header.pack() == bytes);
    Ok(())
}

#[test]
fn well_formed(rt: HostRuntime) -> Result<(), Fail> {
    stands(&rt, &TEN, 10, &[3, 9])?;
    stands(&rt, &MOST, 4096, &[4095])?;
    stands(&rt, &[0xB1, 0x0C, 0x10, 0x00, 0x00], 1, &[])?;
    stands(
        &rt,
        &[0xB1, 0x0C, 0x1A, 0xBC, 0x0C, 0x12, 0x3A, 0xBB, 0x00, 0x10],
        2749,
        &[0x123, 0xABB, 1],
    )
}

#[test]
fn full_log(rt: HostRuntime) -> Result<(), Fail> {
    let mut bytes = block(&[0xB1, 0x0C, 0x10, 0x01, 0x80]);
    assert!(rt; Header::unpack(&bytes).is_some(), "32 slots for address 0");
    bytes[52] = 1;
    let header = Header::unpack(&bytes).ok_or("slot 32 for address 1")?;
    assert_eq!(rt; header.slot_of(0), Some(31));
    assert_eq!(rt; header.slot_of(1), Some(32));
    assert_eq!(rt; header.slot_of(2), None);
    Ok(())
}

#[test]
fn not_well_formed(rt: HostRuntime) {
    for (front, what) in NOT_WELL_FORMED {
        assert!(rt; Header::unpack(&block(&front)).is_none(), "{}", what);
    }
    for i in 53..512usize {
        let mut bytes = block(&TEN);
        bytes[i] = 1;
        assert!(rt;
            Header::unpack(&bytes).is_none(),
            "a byte set among the last 459"
        );
    }
}
