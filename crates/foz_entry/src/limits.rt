/// The bytes of the header that an archive begins with.
pub const HEADER_LEN: usize = 16;

/// The bytes of an entry's head, before its payload.
pub const HEAD_LEN: usize = 56;

/// The longest payload of an undamaged entry, in bytes.
pub const PAYLOAD_LIMIT: u32 = 16_777_216;

/// The last place where the entries of an archive may end. A file may have one byte more, the gate.
pub const END_LIMIT: u64 = 268_435_456;

/// The most entries of an archive.
pub const COUNT_LIMIT: u32 = 1_048_576;
