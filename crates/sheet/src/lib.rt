// Sheets: lines that name tags, set their pages and make calls of a tray, and the text that a run
// of one prints.
#![tactic(auto)]

mod drafts;
pub mod faults;
pub mod lines;
mod making;
mod naming;
pub mod printing;
pub mod running;
mod stages;
pub mod stops;
pub mod words;
