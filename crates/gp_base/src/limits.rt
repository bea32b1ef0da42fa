//! The limits of the program.

/// Bytes of the largest ELF file.
pub const MAX_ELF_BYTES: u32 = 67_108_864;

/// Bytes of the profile files of one command, together.
pub const MAX_PROFILE_BYTES: u32 = 67_108_864;

/// Profile files of one command.
pub const MAX_PROFILE_FILES: usize = 16;

/// Program headers of an ELF file.
pub const MAX_PROGRAM_HEADERS: u32 = 64;

/// Kept symbols of an ELF file.
pub const MAX_SYMBOLS: u32 = 65_536;

/// Bytes that are kept of a symbol's name.
pub const MAX_NAME_BYTES: u32 = 4_095;

/// Bytes of the longest text.
pub const MAX_TEXT_BYTES: u32 = 16_777_216;

/// The highest address at which a text may end.
pub const MAX_TEXT_END: u32 = 0xFFFF_F000;

/// MiB of the smallest RAM.
pub const MIN_RAM_MIB: u32 = 4;

/// MiB of the largest RAM.
pub const MAX_RAM_MIB: u32 = 256;

/// The largest value of `--every`, `--budget`, `--rate`, `--quantum` and `--seed`, which begin at 1.
pub const MAX_NUMBER: u32 = 2_147_483_647;

/// Harts of a run.
pub const MAX_HARTS: u32 = 8;

/// Functions of the demo program.
pub const MAX_DEMO: u32 = 2_000;
