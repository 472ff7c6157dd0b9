use dfdl_value::CellId;

/// What unknowns come to.
#[derive(Clone, Copy, Debug, PartialEq, Eq, Drop)]
pub enum Solved {
    /// the first faulty unknown, with the number of its cause
    Fault(CellId, u8),
    /// no unknown is faulty, and this is the first one without a value
    Cycle(CellId),
    /// each unknown has a value
    All,
}
