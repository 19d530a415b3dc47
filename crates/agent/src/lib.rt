// The export for C.
#![tactic(auto)]

mod entry;

pub use entry::gekumosari_session;
