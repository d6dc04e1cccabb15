/// What names a recorded object: the tag of its kind and its 64-bit hash. Keys are ordered by tag, then by hash.
#[derive(Clone, Copy, Debug, PartialEq, Eq, PartialOrd, Ord, Hash)]
pub struct Key {
    pub tag: u32,
    pub hash: u64,
}
