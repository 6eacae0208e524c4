// Files by name, so that nothing is lost: an interrupted call is tried again, a fault names its file, and a file is
// written beside its name and renamed, so that it is the old one or the whole new one.
#![tactic(auto)]

mod fault;
mod given;
mod named;
mod read;
mod save;

pub use fault::{Fault, Reason, write_output};
pub use given::{Word, word_at, words};
pub use named::open_read;
pub use read::{read_file, read_some};
pub use save::{Wrote, is_output, write_file};
