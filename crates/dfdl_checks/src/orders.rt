// The orders of bytes and of bits.
ghost use Rattle.std.specs.Prelude.{◌≡◌, codes};
ghost use Rattle.dfdl_checks.specs.JudgedShown.{judged_of};
ghost use Rattle.dfdl_checks.specs.Orders as orders;
ghost use Rattle.dfdl_scope.specs.Scoping.{told};
ghost use Rattle.dfdl_scope.specs.Shown.{chain_of};

use crate::purpose::Purpose;
use crate::representations::is_word;
use crate::subject::Subject;
use dfdl_forms::{BitOrder, ByteOrder};
use dfdl_scope::Component;

/// The orders that the fields of a component have.
#[derive(Debug, Clone, Copy)]
pub(crate) struct Orders {
    pub(crate) bytes_by: ByteOrder,
    pub(crate) bits_by: BitOrder,
}

/// Both orders of a component's fields.
pub(crate) fn orders_of(subject: &Subject<'_, '_, '_>) -> Orders
    ensures { result ≡ orders.orders_of (judged_of subject.now) }
{
    Orders {
        bytes_by: byte_order(subject.chain),
        bits_by: field_order(subject),
    }
}

/// The order of bytes that a chain gives, big endian where it gives none.
fn byte_order(chain: &Component<'_, '_>) -> ByteOrder
    ensures { result ≡ orders.byte_order (told (chain_of chain.now) (codes "byteOrder")) }
{
    if is_word(chain, "byteOrder", "littleEndian") {
        ByteOrder::Little
    } else {
        ByteOrder::Big
    }
}

/// The order of bits that a chain gives, the most significant bit first where it gives none or gives one
/// twice ('Properties Common to both Content and Framing'). Takes no memory.
pub fn bit_order(chain: &Component<'_, '_>) -> BitOrder
    ensures { result ≡ orders.bit_order (told (chain_of chain.now) (codes "bitOrder")) }
{
    if is_word(chain, "bitOrder", "leastSignificantBitFirst") {
        BitOrder::LeastFirst
    } else {
        BitOrder::MostFirst
    }
}

/// The order of bits of a component's fields.
pub(crate) fn field_order(subject: &Subject<'_, '_, '_>) -> BitOrder
    ensures { result ≡ orders.field_order (judged_of subject.now) }
{
    match subject.purpose {
        Purpose::Parsing => bit_order(subject.chain),
        Purpose::Unparsing => BitOrder::MostFirst,
    }
}

/// Whether the least significant bits of a component come first.
pub(crate) fn is_least_first(subject: &Subject<'_, '_, '_>) -> bool
    ensures { result ≡ orders.is_least_first (judged_of subject.now) }
{
    is_word(subject.chain, "bitOrder", "leastSignificantBitFirst")
}

/// Whether two orders of bits are the same.
pub(crate) fn is_same_order(first: BitOrder, second: BitOrder) -> bool
    ensures { result ≡ orders.is_same_order first second }
{
    match (first, second) {
        (BitOrder::MostFirst, BitOrder::MostFirst) => true,
        (BitOrder::LeastFirst, BitOrder::LeastFirst) => true,
        _ => false,
    }
}
