// The characters of a text.

/// A character of a text, and whether terminating markup matches the text from there on.
#[derive(Debug, Clone, Copy, Drop)]
pub(crate) struct Placed {
    pub c: char,
    pub is_markup: bool,
}
