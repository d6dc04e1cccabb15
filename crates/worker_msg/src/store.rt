use crate::pieces::Pieces;
use crate::reply_bytes::ReplyBytes;

/// The bytes that a feed keeps, by who reads it.
#[derive(Debug, Drop)]
pub(crate) enum Store {
    Worker(Pieces),
    Crew(ReplyBytes),
}
