/// Where an unknown stands that was added to a board.
#[derive(Clone, Copy, Debug, PartialEq, Eq, Drop)]
pub enum Mark {
    /// its equation is to be evaluated
    Ready,
    /// it has a value
    Done,
    /// its equation waits for this unknown
    Waits(u32),
    /// its equation gives a fault, the number of a cause
    Faulty(u8),
}
