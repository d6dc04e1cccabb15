use foz_words::Row;

/// An entry point, by its execution model and its name.
#[derive(Debug, Drop)]
pub struct EntryPoint {
    pub model: u32,
    /// The bytes before the name's first zero byte.
    pub name: Row<u8>,
}

/// What a module offers: its entry points, in the order in which they stand.
#[derive(Debug, Drop)]
pub struct Shape {
    pub entries: Row<EntryPoint>,
}
