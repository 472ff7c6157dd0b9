/// How often an element occurs where it stands in a group ('Arrays and Optional Elements').
#[derive(Debug, Clone, Copy, PartialEq, Eq)]
pub struct Occurs {
    /// How many occurrences are required. These are not tried.
    pub least: u32,
    /// How many more there are at most, each of which is tried.
    pub further: u64,
    /// Each is an item of an array.
    pub is_item: bool,
}
