// Tags: the link, the pump tag and the gauge tag.
#![tactic(auto)]

pub mod edges;
pub mod gauge;
pub mod link;
pub mod linked;
pub mod pages;
pub mod pump;
pub mod rights;
