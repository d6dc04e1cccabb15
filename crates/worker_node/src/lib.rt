//! A worker of a replay: it takes frames from a source, calls its driver for them, and writes its replies to a sink.
#![tactic(auto)]

mod creating;
mod ends;
mod laws;
mod served;
mod serving;
mod working;

pub use laws::sessions_have_one_end;
pub use served::Served;
pub use serving::serve;

#[cfg(test)]
mod tests;
