/// The most bytes that a configuration file may have: 16 MiB.
pub const MOST_FILE_BYTES: u64 = 16_777_216;
