// How the content of a simple element lies.

use dfdl_rows::LeafLength;
use dfdl_terms::Primitive;

/// How the content of a simple element lies: its primitive, that of nil where there is one, and what gives its length ('Lengths').
#[derive(Clone, Copy)]
pub struct Form<'a> {
    pub prim: &'a Primitive,
    pub nil: Option<&'a Primitive>,
    pub length: LeafLength,
}
