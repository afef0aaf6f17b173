use front_base::Bytes;

/// What a connection in memory does.
#[derive(Debug, Drop)]
pub struct Script {
    /// All that it gives.
    pub input: Bytes,
    /// How many bytes may be written to it. A write that would pass this is a fault.
    pub room: u64,
    /// The greatest sizes of its reads, one read after another, a 0 counting as 1. A read that fails uses none. After the
    /// last one, a read gives as many bytes as it can.
    pub sizes: Vec<u32>,
    /// The numbers of the reads that fail, from 1.
    pub read_fails: Vec<u64>,
    /// The numbers of the writes that fail, from 1.
    pub write_fails: Vec<u64>,
}
