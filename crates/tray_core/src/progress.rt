// How far a stock has come. The list is lent by the caller, so what is filled of it stands here, beside it: a struct that held
// the list would have to say in each contract that it still holds the same one.
#[derive(Clone, Copy)]
pub(crate) struct Progress {
    pub(crate) frames: usize,
    pub(crate) rounds: usize,
    // of this round
    pub(crate) clashes: usize,
    // all slots of this round so far
    pub(crate) silent: bool,
    // how many places of the list are filled
    pub(crate) listed: usize,
}
