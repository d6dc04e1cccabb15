//! The commands of the program, over traits of the outside.
#![tactic(auto)]

mod check;
mod check_laws;
mod hash;
mod host;
mod list;
mod outcome;
mod program;
mod put;
mod record;
mod replay;
mod replay_laws;
mod worker;
mod worker_laws;

pub use check::check_cmd;
pub use check_laws::checks_tell_fates;
pub use hash::hash_cmd;
pub use host::Host;
pub use list::list_cmd;
pub use program::run;
pub use put::put_cmd;
pub use record::{record_cmd, record_with};
pub use replay::replay_cmd;
pub use replay_laws::laws_of_replays;
pub use worker::worker_cmd;
pub use worker_laws::worker_statuses;
