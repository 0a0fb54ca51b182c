//! Where bytes stop to begin a file of opam: laws over the definitions of the faults.
#![tactic(auto)]

mod laws;

pub use laws::{
    beginnings_are_told, deep_places_are_told, ended_inside_is_told, faults_are_there,
    rows_are_told, spellings_are_faultless, stray_is_told, stray_tokens_are_told, tails_are_told,
};
