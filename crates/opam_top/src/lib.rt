//! The top call: from the words of a command line to the switch.
#![tactic(auto)]

mod change;
mod commit;
mod deciding;
mod decision;
mod ending;
mod facts;
mod fresh;
mod front;
mod host_file;
mod install_text;
mod jobs;
mod laws;
mod lines;
mod lock;
mod member;
mod numbering;
mod opam_file;
mod owners;
mod placing;
mod readings;
mod reasons;
mod records;
mod repository;
mod request;
mod running;
mod sources;
mod spelling;
mod status;
mod stops;
mod telling;
mod totals;

pub use command_words::{Change, Command, Query, Shown, WordFault, read_words};
pub use commit::Encoded;
pub use facts::{Facts, VarValue};
pub use laws::each_is_decided;
pub use readings::{
    install_texts_are_read, locks_are_read, names_are_in_order, opam_files_are_read,
};
pub use records::{Placed, Rec, encode, one_record_for_bytes};
pub use running::opam_run;
pub use status::{Ended, Receipt, Status};
