/// Who reads the frames, and so which kinds are taken.
#[derive(Clone, Copy, Debug, PartialEq, Eq)]
pub enum Side {
    /// It takes Load, Do and Quit.
    Worker,
    /// It takes Hello and Reply.
    Crew,
}
