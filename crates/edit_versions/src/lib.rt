//! Edits of a sheaf: the verdict on an edit, and the edited sheaf.
#![tactic(auto)]

mod application;
mod construction;
mod fault;
mod judgement;
mod work;

pub use application::apply;
pub use fault::EditFault;
