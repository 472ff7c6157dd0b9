//! What the components of a schema are joined from and consist of: the declaration of an element, its type, its chain of
//! elements with properties, its parts, its kind, what it states besides properties, its tests, what it sets of variables, and the
//! type of a length prefix and the content of a hidden group by their names.
//!
//! Contracts cite `specs/Declarations.antt`, `specs/Derivation.antt`, `specs/Chains.antt`, `specs/Parts.antt`, `specs/Kinds.antt`,
//! `specs/Lengths.antt`, `specs/Facts.antt`, `specs/Tests.antt`, `specs/Settings.antt`, `specs/Hidden.antt` and `specs/Prefixes.antt`. The
//! chapters are 'DFDL Schema Component Model', 'Syntax of DFDL Annotation Elements' and 'Property Scoping and DFDL Schema Checking'.
#![tactic(auto)]

mod chain;
mod declaring;
mod derivation;
mod everywhere;
mod facts;
mod hidden;
mod kinds;
mod lengths;
mod named_type;
mod numbers;
mod parts;
mod prefixes;
mod settings;
mod simple;
mod tests;
mod typed;

pub use chain::chain_sites;
pub use declaring::{declaration, referred};
pub use derivation::type_of;
pub use everywhere::all_sites;
pub use facts::facts_at;
pub use hidden::{group_named, named_groups_are_within};
pub use kinds::kind_at;
pub use named_type::NamedType;
pub use numbers::Numbers;
pub use parts::{is_component, parts_at};
pub use prefixes::prefix_type;
pub use settings::{Setter, settings_at, statements_are_within};
pub use tests::tests_at;
pub use typed::Typed;
