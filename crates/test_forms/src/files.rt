//! Files of both forms.

use gp_base::{le2, le4};
use std::alloc::{AllocError, Global};

/// A 4.4BSD file with two counters and two arcs.
pub const TWO_OF_EACH: [u8; 60] =
    *b"\0\0\x01\0\x08\0\x01\0\x24\0\0\0y\x18\x05\0d\0\0\0\x01\x02\x03\x04\x05\x06\x07\x08\x09\x0A\x0B\x0C\
    \x03\0\0\x01\
    \x04\0\x01\0\x14\0\x01\0\x07\0\0\0\
    \x08\0\x01\0\x18\0\x01\0\x09\0\0\0";

/// One without counters and arcs.
pub const HEADER_ALONE: [u8; 32] =
    *b"\0\0\x01\0\0\0\x01\0\x20\0\0\0y\x18\x05\0d\0\0\0\0\0\0\0\0\0\0\0\0\0\0\0";

/// The 4.4BSD file of a small run: its header, four counters and three arcs.
pub const BSD_RUN: [u8; 76] =
    *b"\0\0\x01\0\x10\0\x01\0\x28\0\0\0y\x18\x05\0d\0\0\0\0\0\0\0\0\0\0\0\0\0\0\0\
    \x01\0\x02\0\x2C\x01\x01\0\
    \x04\0\x01\0\x14\0\x01\0\x01\0\0\0\
    \x08\0\x01\0\x20\0\x01\0\x02\0\0\0\
    \x08\0\x01\0\x30\0\x01\0\x01\0\0\0";

/// A GNU file of two histograms from 0x10000 to below 0x10010, an arc that was never called, and the count of
/// a block. Its spare bytes are not zeros.
pub const SEVERAL: [u8; 128] = *b"gmon\x01\0\0\0\x01\x02\x03\x04\x05\x06\x07\x08\x09\x0A\x0B\x0C\
    \0\0\0\x01\0\x10\0\x01\0\x04\0\0\0d\0\0\0\
    seconds\0\0\0\0\0\0\0\0s\
    \x01\0\x02\0\0\0\0\0\
    \0\0\0\x01\0\x10\0\x01\0\x04\0\0\0d\0\0\0\
    seconds\0\0\0\0\0\0\0\0s\
    \x01\0\x02\0\0\0\0\0\
    \x01\x04\0\x01\0\x08\0\x01\0\0\0\0\0\
    \x02\x01\0\0\0\0\0\x01\0\x09\0\0\0";

/// The GNU file of a small run: its header, a histogram of four counters, and three arcs.
pub const GNU_RUN: [u8; 100] = *b"gmon\x01\0\0\0\0\0\0\0\0\0\0\0\0\0\0\0\
    \0\0\0\x01\0\x10\0\x01\0\x04\0\0\0d\0\0\0\
    seconds\0\0\0\0\0\0\0\0s\
    \x01\0\x02\0\x2C\x01\x01\0\
    \x01\x04\0\x01\0\x14\0\x01\0\x01\0\0\0\
    \x01\x08\0\x01\0\x20\0\x01\0\x02\0\0\0\
    \x01\x08\0\x01\0\x30\0\x01\0\x01\0\0\0";

/// The GNU file of a profile with a counter of 200,000, with 2^33 calls of a pair and none of another, and with 5
/// and 2^33 executions of basic blocks.
pub const LARGE_NUMBERS: [u8; 275] = *b"gmon\x01\0\0\0\0\0\0\0\0\0\0\0\0\0\0\0\
    \0\0\0\x01\0\x0C\0\x01\0\x03\0\0\0d\0\0\0\
    seconds\0\0\0\0\0\0\0\0s\
    \xFF\xFF\xFF\xFF\0\0\
    \0\0\0\x01\0\x0C\0\x01\0\x03\0\0\0d\0\0\0\
    seconds\0\0\0\0\0\0\0\0s\
    \xFF\xFF\0\0\0\0\
    \0\0\0\x01\0\x0C\0\x01\0\x03\0\0\0d\0\0\0\
    seconds\0\0\0\0\0\0\0\0s\
    \xFF\xFF\0\0\0\0\
    \0\0\0\x01\0\x0C\0\x01\0\x03\0\0\0d\0\0\0\
    seconds\0\0\0\0\0\0\0\0s\
    \x43\x0D\0\0\0\0\
    \x01\0\0\x01\0\x08\0\x01\0\xFF\xFF\xFF\xFF\
    \x01\0\0\x01\0\x08\0\x01\0\xFF\xFF\xFF\xFF\
    \x01\0\0\x01\0\x08\0\x01\0\x02\0\0\0\
    \x01\x04\0\x01\0\x08\0\x01\0\0\0\0\0\
    \x02\x02\0\0\0\0\0\x01\0\x05\0\0\0\x04\0\x01\0\xFF\xFF\xFF\xFF\
    \x02\x01\0\0\0\x04\0\x01\0\xFF\xFF\xFF\xFF\
    \x02\x01\0\0\0\x04\0\x01\0\x02\0\0\0";

/// A 4.4BSD file of 100,000 bytes.
pub fn large_bsd_file(alloc: Global) -> Result<Vec<u8>, AllocError> {
    let mut bytes = HEADER_ALONE.to_vec(alloc)?;
    bytes[6] = 2;
    bytes[8] = 0x60;
    bytes[9] = 0x1F;
    for i in 0..4_000 {
        bytes.extend_from_slice(&le2(i))?;
    }
    for i in 0..7_664 {
        bytes.extend_from_slice(&le4(i))?;
        bytes.extend_from_slice(&le4(i + 1))?;
        bytes.extend_from_slice(&le4(i + 2))?;
    }
    Ok(bytes)
}

/// A GNU file of 100,000 bytes.
pub fn large_gnu_file(alloc: Global) -> Result<Vec<u8>, AllocError> {
    let mut bytes = SEVERAL.split_at(53).0.to_vec(alloc)?;
    bytes[29] = 0xA0;
    bytes[30] = 0x0F;
    for i in 0..4_000 {
        bytes.extend_from_slice(&le2(i))?;
    }
    for i in 0..4_006 {
        bytes.push(1)?;
        bytes.extend_from_slice(&le4(i))?;
        bytes.extend_from_slice(&le4(i + 1))?;
        bytes.extend_from_slice(&le4(i + 2))?;
    }
    bytes.push(2)?;
    bytes.extend_from_slice(&le4(4_983))?;
    for i in 0..4_983 {
        bytes.extend_from_slice(&le4(i))?;
        bytes.extend_from_slice(&le4(i + 1))?;
    }
    Ok(bytes)
}
