//! The lines of a session, as text and as a list.
#![tactic(auto)]

mod attaching;
mod fault;
mod form;
mod laws;
mod lexicon;
mod reading;
mod session;
mod start;
mod words;

pub use attaching::session_of_all;
pub use fault::{Reason, SessionFault};
pub use laws::{name_laws, session_laws};
pub use reading::{read_session, session_of};
pub use session::{Line, SessionText};
