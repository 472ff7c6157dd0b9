// What a byte tells of the texts of open lists.

/// What a byte tells of the texts that begin with it: it alone is one of the list at a place, or none is, or some may be longer.
#[derive(Debug, Clone, Copy)]
pub(crate) enum Verdict {
    Alone(Option<usize>),
    Longer,
}
