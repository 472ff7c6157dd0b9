// The lists that are open at a place.
use crate::markup::Markup;

/// The lists that are open at a place, as their numbers in a register, the outermost first. A number may stand there twice.
#[derive(Clone, Copy)]
pub struct OpenLists<'m> {
    pub markup: &'m Markup,
    pub numbers: &'m [u32],
}
