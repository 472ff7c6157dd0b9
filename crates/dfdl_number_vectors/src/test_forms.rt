// Forms of text numbers for the tests.
ghost use Rattle.std.specs.Prelude.{IfOk};
ghost use Rattle.dfdl_forms.specs.NumberForms.{HasPattern, IsNumberForm};

use dfdl_forms::{NumberForm, NumberPattern, Rounding};
use dfdl_number_pattern::read_pattern;
use std::alloc::Global;
use std::test::Fail;

fn form(base: u8, pattern: Option<NumberPattern>, rounding: Rounding) -> Result<NumberForm, Fail>
    requires { HasPattern pattern }
    ensures { IfOk result IsNumberForm }
{
    Ok(NumberForm::new(base, pattern, '.', ',', rounding).ok_or("no form")?)
}

pub(crate) fn patterned(
    alloc: Global,
    pattern: &str,
    rounding: Rounding,
) -> Result<NumberForm, Fail>
    ensures { IfOk result IsNumberForm }
{
    form(10, Some(read_pattern(alloc, pattern)?), rounding)
}

pub(crate) fn based(base: u8) -> Result<NumberForm, Fail>
    ensures { IfOk result IsNumberForm }
{
    form(base, None, Rounding::Unnecessary)
}
