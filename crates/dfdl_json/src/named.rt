// The elements of which an infoset has members, and their names.
ghost use Rattle.std.specs.Prelude.{◌≡◌, IfOk, OnOk};
ghost use Rattle.std.specs.BTreeSet.{contains};
ghost use Rattle.std.specs.Cmp.Lexicographic.{slice_cmp};
ghost use Rattle.std.specs.Ordering.{nat_cmp};
ghost use Rattle.dfdl_json.specs.Hidden.{MarksHidden};
ghost use Rattle.dfdl_json.specs.Members.{members_in, with_member};
ghost use Rattle.dfdl_json.specs.Reading.{HasNames};

use crate::children::{elements_in, name_of};
use crate::hidden::Hidden;
use dfdl_terms::{RowId, Terms};
use std::alloc::{AllocError, Global};
use std::collections::BTreeSet;

// The rows of elements in schema order, and the names that they have.
#[derive(Drop)]
pub(crate) struct NamedElements<'t> {
    pub(crate) rows: Vec<RowId>,
    pub(crate) names: BTreeSet<&'t str>,
}

impl<'t> NamedElements<'t> {
    // Those of which the content of this row has members.
    pub(crate) fn of(
        alloc: Global,
        terms: &'t Terms,
        hidden: &Hidden,
        body: RowId,
    ) -> Result<NamedElements<'t>, AllocError>
        requires { MarksHidden terms.now hidden.now }
        ensures rows { IfOk result (λ named. named.rows.items ≡ members_in terms.now body) }
        ensures names { IfOk result (λ named. HasNames (contains (λ x y. slice_cmp nat_cmp x.now y.now) named.names) terms.now named.rows.items) }
    {
        let elements = elements_in(alloc, terms, body)?;
        let mut named = NamedElements {
            rows: Vec::new(alloc),
            names: BTreeSet::new(alloc),
        };
        for row in &elements {
            named.add(terms, hidden, *row)?;
        }
        Ok(named)
    }

    // One more element, unless it is hidden or one of those before it has its name.
    fn add(&mut self, terms: &'t Terms, hidden: &Hidden, row: RowId) -> Result<(), AllocError>
        requires hidden { MarksHidden terms.now hidden.now }
        requires named { HasNames (contains (λ x y. slice_cmp nat_cmp x.now y.now) self.old.names) terms.now self.old.rows.items }
        ensures rows { OnOk result (self.new.rows.items ≡ with_member terms.now self.old.rows.items row) }
        ensures names { OnOk result (HasNames (contains (λ x y. slice_cmp nat_cmp x.now y.now) self.new.names) terms.now self.new.rows.items) }
    {
        if hidden.has(row) {
            return Ok(());
        }
        if self.names.insert(name_of(terms, row))? {
            self.rows.push(row)?;
        }
        Ok(())
    }
}
