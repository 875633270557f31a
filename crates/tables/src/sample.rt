// Bytes to test on.
use disks::block::Block;
use std::alloc::{AllocError, Global};

// The bytes given, then zeros up to the length.
pub fn filled(heap: Global, front: &[u8], length: u32) -> Result<Vec<u8>, AllocError> {
    let mut bytes = front.to_vec(heap)?;
    bytes.resize(front.len().max(length as usize), 0)?;
    Ok(bytes)
}

// The bytes given, then zeros.
pub fn block(front: &[u8]) -> Block {
    let mut block = [0u8; 512];
    for (byte, b) in block.iter_mut().zip(front) {
        *byte = *b;
    }
    block
}
