// The form by which a leaf writes its value.
ghost use Rattle.std.specs.Prelude.{◌≡◌, option_map};
ghost use Rattle.dfdl_pieces.specs.Laying as lays;

use dfdl_forms::IntForm;
use dfdl_json::row_at;
use dfdl_terms::{Primitive, Row, RowId, Terms};

// The form of the binary integer that the row of this number writes.
pub(crate) fn form_at(terms: &Terms, row: RowId) -> Option<&IntForm>
    ensures { option_map (λ form. form.now) result ≡ lays.form_at terms.now row }
{
    let Some(Row::Leaf { prim }) = row_at(terms, row) else {
        return None;
    };
    match terms.tables().primitives().get(*prim as usize) {
        Some(Primitive::Integer(form)) => Some(form),
        Some(Primitive::Packed(_)) => None,
        Some(Primitive::Truth(_)) => None,
        Some(Primitive::Octets(_)) => None,
        Some(Primitive::Text(_)) => None,
        Some(Primitive::NilOctets(_)) => None,
        Some(Primitive::Default(_)) => None,
        Some(Primitive::NilValues(_)) => None,
        Some(Primitive::Pattern(_)) => None,
        None => None,
    }
}
