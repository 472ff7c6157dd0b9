// What is kept of the first bytes of texts.
use dfdl_bits::ByteSet;

/// What is kept of the first bytes of a list's texts: the bytes that alone are one, those with which longer ones begin, whether no
/// byte is one, and whether one has a byte.
#[derive(Debug, Clone, Copy, Drop)]
pub(crate) struct Firsts {
    pub ones: ByteSet,
    pub more: ByteSet,
    pub empty: bool,
    pub some: bool,
}

/// The bytes with which texts of open lists begin, and whether a search for a text looks at a byte at all.
#[derive(Debug, Clone, Copy, Drop)]
pub struct FirstBytes {
    pub set: ByteSet,
    pub looks: bool,
}
