//! What the product sees of the outside: the machine's files, streams that take bytes, and the workshop that builds
//! packages; and for tests, of each one that tells what it holds.
#![tactic(auto)]

pub mod calls;
mod host;
mod memory_host;
mod memory_sink;
mod script_shop;
mod sink;
mod teller;
mod workshop;

pub use host::{Found, Host, HostFault};
pub use memory_host::MemoryHost;
pub use memory_sink::MemorySink;
pub use script_shop::{Script, ScriptShop};
pub use sink::{Failed, Sink};
pub use teller::Teller;
pub use workshop::{Ending, Fate, Job, Seen, Workshop, fates_are_least};
