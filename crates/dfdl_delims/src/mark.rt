// How much of a register stands before a list.

/// How many begins and pieces of literals stand before those of a list.
#[derive(Debug, Clone, Copy, Drop)]
pub(crate) struct Mark {
    pub starts: usize,
    pub pieces: usize,
}
