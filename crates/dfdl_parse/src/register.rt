// The register of the lists of delimiters.
ghost use Rattle.std.specs.Prelude.{◌≡◌, [], ◌∷◌, ◌++◌, IfOk, OnOk, List, map};
ghost use Rattle.dfdl_delims.specs.Lists.{Opened};
ghost use Rattle.dfdl_delims.specs.Registers.{Holds};
ghost use Rattle.dfdl_grammar.specs.Delimiters.{opened};

use dfdl_delims::Markup;
use dfdl_terms::Delimiters;
use std::alloc::{AllocError, Global};

/// The lists of the tables, list n of them as list n of the register. More pieces than 32 bits count are more than there is memory for.
pub(crate) fn register_of(alloc: Global, delimiters: &[Delimiters]) -> Result<Markup, AllocError>
    ensures { IfOk result (λ markup. Holds markup (map opened delimiters.now)) }
{
    let Some(units) = units_of(delimiters) else {
        return Err(AllocError);
    };
    let count = delimiters.len().min(u32::MAX as usize);
    let mut markup = Markup::open(alloc, count as u32, units)?;
    put_lists(&mut markup, delimiters)?;
    Ok(markup)
}

// Puts lists into a register that holds none.
fn put_lists(markup: &mut Markup, delimiters: &[Delimiters]) -> Result<(), AllocError>
    requires { Holds markup.old [] }
    ensures { OnOk result (Holds markup.new (map opened delimiters.now)) }
{
    for list in delimiters {
        put_list(markup, list)?;
    }
    Ok(())
}

// Puts a list behind the others.
fn put_list(markup: &mut Markup, list: &Delimiters) -> Result<(), AllocError>
    ensures { OnOk result ((lists : List Opened) → Holds markup.old lists → Holds markup.new (lists ++ opened list.now ∷ [])) }
{
    match markup.push(&list.literals, list.encoding, list.fold) {
        Ok(()) => Ok(()),
        Err(_) => Err(AllocError),
    }
}

// How many pieces the literals of lists take up in a register, if one can have room for so many.
fn units_of(delimiters: &[Delimiters]) -> Option<u32> {
    let mut units: u32 = 0;
    for list in delimiters {
        match Markup::with_units(units, &list.literals) {
            Some(more) => {
                units = more;
            }
            None => return None,
        }
    }
    Some(units)
}
