// Calls on bench disks, through cuts and deaths.
use crate::calls::{buffered, plain, play};
use disks::cause::Call;
use disks::reader::Reader;
use std::test::Fail;

// Two writes to one block wait, and the barrier is cut; each row is a pick and what the block shows after the restart.
#[test]
fn picks(rt: HostRuntime) -> Result<(), Fail> {
    for (pick, shown) in [(0, 0), (1, 7), (2, 8), (3, 8), (65533, 7), (65535, 8)] {
        let mut disk = buffered(rt.alloc(), 512, &[0x40000002 + 16384 * pick])?;
        play(
            &rt,
            &mut disk,
            &[
                (Call::Write(0), 7, 0),
                (Call::Write(0), 8, 0),
                (Call::Barrier, 0, 2),
                (Call::Read(0), 0, 2),
                (Call::Restart, 0, 0),
                (Call::Read(0), shown, 0),
            ],
        );
    }
    Ok(())
}

// Sixteen wait after seventeen writes, so that the first stands whatever the pick.
#[test]
fn seventeen_writes(rt: HostRuntime) -> Result<(), Fail> {
    for (pick, second, last) in [(0, 0, 0), (1, 2, 0), (32768, 0, 17), (65535, 2, 17)] {
        let mut disk = buffered(rt.alloc(), 17 * 512, &[0x40000011 + 16384 * pick])?;
        for block in 0..17u8 {
            play(
                &rt,
                &mut disk,
                &[(Call::Write(u16::from(block)), block + 1, 0)],
            );
        }
        play(
            &rt,
            &mut disk,
            &[
                (Call::Read(0), 0, 2),
                (Call::Restart, 0, 0),
                (Call::Read(0), 1, 0),
                (Call::Read(1), second, 0),
                (Call::Read(16), last, 0),
            ],
        );
    }
    Ok(())
}

// The restart of a disk that is on cuts it, by a step with verb 0 and a pick too.
#[test]
fn restart_of_a_disk_that_is_on(rt: HostRuntime) -> Result<(), Fail> {
    for (word, answer, shown) in [
        (0x00000001, 0, 0),
        (0x00004001, 0, 5),
        (0x40004001, 2, 5),
        (0x80000001, 2, 0),
    ] {
        let mut disk = buffered(rt.alloc(), 512, &[word])?;
        play(
            &rt,
            &mut disk,
            &[
                (Call::Write(0), 5, 0),
                (Call::Restart, 0, answer),
                (Call::Restart, 0, 0),
                (Call::Read(0), shown, 0),
            ],
        );
    }
    Ok(())
}

// Cut before and after a write, and after a read, at both disks: the words stand close together.
#[test]
fn before_and_after(rt: HostRuntime) -> Result<(), Fail> {
    let words = [
        0x40000000, 0x00000000, 0x80004000, 0x00000000, 0x80000000, 0x00000000, 0x00000000,
        0xC0000000,
    ];
    let rows = [
        (Call::Write(0), 4, 2),
        (Call::Restart, 0, 0),
        (Call::Write(1), 5, 2),
        (Call::Restart, 0, 0),
        (Call::Read(1), 5, 2),
        (Call::Restart, 0, 0),
        (Call::Read(1), 5, 0),
        (Call::Write(1), 6, 3),
        (Call::Restart, 0, 3),
        (Call::Read(2), 0, 1),
        (Call::Read(0), 0, 3),
        (Call::Write(0), 6, 3),
        (Call::Barrier, 0, 3),
    ];
    play(&rt, &mut plain(rt.alloc(), 1024, &words)?, &rows);
    play(&rt, &mut buffered(rt.alloc(), 1024, &words)?, &rows);
    Ok(())
}

// A refused call takes no step: the word is met by the first call that is not refused.
#[test]
fn refused_calls_take_no_step(rt: HostRuntime) -> Result<(), Fail> {
    let words = [0x40000000, 0xC0000000];
    let rows = [
        (Call::Read(1), 0, 1),
        (Call::Write(65535), 0, 1),
        (Call::Read(0), 0, 2),
        (Call::Write(0), 0, 2),
        (Call::Write(1), 0, 1),
        (Call::Barrier, 0, 2),
        (Call::Restart, 0, 3),
    ];
    play(&rt, &mut plain(rt.alloc(), 512, &words)?, &rows);
    play(&rt, &mut buffered(rt.alloc(), 512, &words)?, &rows);
    Ok(())
}

#[test]
fn sizes(rt: HostRuntime) -> Result<(), Fail> {
    for (length, size) in [(0, 0), (511, 0), (512, 1), (1030, 2), (65536 * 512, 65535)] {
        let last = u16::saturating_sub(size, 1);
        let answer = if size == 0 { 1 } else { 0 };
        let rows = [
            (Call::Write(size), 9, 1),
            (Call::Write(last), 9, answer),
            (Call::Read(last), 9, answer),
        ];
        let mut disk = plain(rt.alloc(), length, &[])?;
        assert_eq!(rt; disk.size(), size);
        play(&rt, &mut disk, &rows);
        let memory = disk.into_memory();
        assert_eq!(rt; memory.len(), length as usize);
        // A block past the size is never touched.
        assert_eq!(rt; memory.get(65535 * 512).copied().unwrap_or(0), 0);
        let mut disk = buffered(rt.alloc(), length, &[])?;
        assert_eq!(rt; disk.size(), size);
        play(&rt, &mut disk, &rows);
    }
    Ok(())
}

// What stands is taken out; what waits is gone, and bytes past the last block are as they were.
#[test]
fn memory_taken_out(rt: HostRuntime) -> Result<(), Fail> {
    let mut disk = buffered(rt.alloc(), 1030, &[])?;
    play(
        &rt,
        &mut disk,
        &[
            (Call::Write(0), 3, 0),
            (Call::Barrier, 0, 0),
            (Call::Write(1), 4, 0),
            (Call::Read(1), 4, 0),
        ],
    );
    let memory = disk.into_memory();
    assert!(rt; memory.len() == 1030);
    assert!(rt; memory[0] == 3 && memory[511] == 3 && memory[512] == 0 && memory[1029] == 0);
    Ok(())
}
