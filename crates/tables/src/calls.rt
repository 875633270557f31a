// Calls on disks, by rows: what the tables of bench disks and pairs share.
use crate::sample::filled;
use bench::schedule::Schedule;
use bench_disks::buffered::Buffered;
use bench_disks::plain::Plain;
use disks::cause::Call;
use disks::disk::Disk;
use disks::reader::Reader;
use disks::refusal::Refusal;
use std::alloc::{AllocError, Global};
use std::process::Abort;

// A call, the byte that a write fills a block with or that a done read shows, and the answer's number.
pub type Row = (Call, u8, u8);

pub fn number_of(answer: Result<(), Refusal>) -> u8 {
    answer.err().map_or(0, |e| e.number())
}

// Makes the calls and checks each answer; a refused read leaves the place at 255.
pub fn play<D: Disk>(rt: &impl Abort, disk: &mut D, rows: &[Row]) {
    for (call, byte, number) in rows.iter().copied() {
        let mut place = [255u8; 512];
        let answer = match call {
            Call::Read(block) => disk.read(block, &mut place),
            Call::Write(block) => disk.write(block, &[byte; 512]),
            Call::Barrier => disk.barrier(),
            Call::Restart => disk.restart(),
        };
        assert_eq!(rt; number_of(answer), number);
        let shown = match call {
            Call::Read(_) if number == 0 => byte,
            _ => 255,
        };
        assert_eq!(rt; place[511], shown);
    }
}

pub fn plain(heap: Global, length: u32, words: &[u32]) -> Result<Plain, AllocError> {
    Ok(Plain::new(
        filled(heap, &[], length)?,
        Schedule::new(words.to_vec(heap)?),
    ))
}

pub fn buffered(heap: Global, length: u32, words: &[u32]) -> Result<Buffered, AllocError> {
    let memory = filled(heap, &[], length)?;
    let schedule = Schedule::new(words.to_vec(heap)?);
    Buffered::new(heap, memory, schedule).map_err(|_| AllocError)
}
