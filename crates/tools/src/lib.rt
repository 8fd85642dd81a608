//! What the programs share: a host over any system, and the words after a program's name.
//! The steps of that host are here one by one, too, up to a whole [`Run`].
#![tactic(auto)]

mod arguments;
mod failed_call_counts;
mod identity;
mod inputs;
mod lines;
mod outputs;
mod run;
mod streams;
mod system;
mod system_host;

pub use arguments::{WordsFault, words};
pub use failed_call_counts::RunFailureCounts;
pub use identity::FileIdentity;
pub use inputs::{read_salt, read_secret};
pub use lines::say_if_stderr_is_separate;
pub use outputs::open_apart;
pub use run::Run;
pub use streams::{read_full, read_some, write_some};
pub use system::{Reading, StreamRole, System, WordFault};
pub use system_host::SystemHost;
