// Looks at images of every kind of size.
use crate::sample::filled;
use disks::image::Image;
use disks::reader::Reader;
use std::test::Fail;
use store::look::look;
use store::look_refusal::LookRefusal;

#[test]
fn sizes_of_images(rt: HostRuntime) -> Result<(), Fail> {
    let table: [(u32, u16); 7] = [
        (0, 0),
        (511, 0),
        (512, 1),
        (1023, 1),
        (1024, 2),
        (512 * 65535, 65535),
        (512 * 65536, 65535),
    ];
    for (length, size) in table {
        let bytes = filled(rt.alloc(), &[], length)?;
        let image = Image::new(&bytes);
        assert_eq!(rt; image.size(), size);
        assert_eq!(rt; image.height(), 0);
    }
    Ok(())
}

// What a look at the address answers: 0 or its number.
fn answer(bytes: &[u8], address: u16) -> u8 {
    let mut image = Image::new(bytes);
    let mut place = [7u8; 512];
    match look(&mut image, address, &mut place) {
        Ok(()) => 0,
        Err(e) => e.number(),
    }
}

#[test]
fn answers_by_size(rt: HostRuntime) -> Result<(), Fail> {
    // The header's last two bytes of N - 1, the image's blocks, the address, the answer.
    let table: [(u8, u8, u16, u16, u8); 14] = [
        (0x10, 0x00, 0, 0, 6),
        (0x10, 0x00, 33, 0, 6),
        (0x10, 0x00, 34, 0, 0),
        (0x10, 0x00, 34, 1, 12),
        (0x10, 0x00, 34, 65535, 12),
        (0x10, 0x00, 35, 0, 7),
        (0x10, 0x01, 34, 0, 7),
        (0x10, 0x01, 34, 65535, 7),
        (0x20, 0x00, 34, 0, 7),
        (0x1F, 0xFF, 4129, 0, 0),
        (0x1F, 0xFF, 4129, 4095, 0),
        (0x1F, 0xFF, 4129, 4096, 12),
        (0x1F, 0xFE, 4129, 0, 7),
        (0x1F, 0xFF, 4130, 0, 6),
    ];
    for (high, low, blocks, address, expected) in table {
        let front = [0xB1, 0x0C, high, low];
        let front = if blocks == 0 {
            &front[0..0]
        } else {
            &front[0..4]
        };
        let bytes = filled(rt.alloc(), front, u32::from(blocks).saturating_mul(512))?;
        assert_eq!(rt; answer(&bytes, address), expected);
    }
    assert_eq!(rt; answer(&filled(rt.alloc(), &[], 511)?, 0), 6);
    Ok(())
}

#[test]
fn refused_look_leaves_the_place(rt: HostRuntime) -> Result<(), Fail> {
    let bytes = filled(rt.alloc(), &[0xB1, 0x0C, 0x10, 0x00], 34 * 512)?;
    let mut image = Image::new(&bytes);
    let mut place = [7u8; 512];
    assert!(rt; matches!(look(&mut image, 1, &mut place), Err(LookRefusal::PastPlan)));
    assert!(rt; place == [7u8; 512]);
    assert!(rt; look(&mut image, 0, &mut place).is_ok());
    assert!(rt; place == [0u8; 512]);
    Ok(())
}
