/// A call of an object of the outside has failed.
#[derive(Clone, Copy, Debug, PartialEq, Eq)]
pub struct Failed;
