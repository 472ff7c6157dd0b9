// Variables, as expressions read them.
ghost use Rattle.std.specs.Prelude.{◌≡◌, IfOk, OnErr, option_copied};
ghost use Rattle.dfdl_surroundings.specs.Answers.{told_or, variable_read, variable_value};

use dfdl_expression_eval::{Evaluated, OutOfMemory};
use dfdl_value::Value;
use dfdl_vars::Vars;
use std::alloc::Global;

// A value that may not be there.
fn told_or(alloc: Global, cause: u8, value: Option<&Value>) -> Result<Evaluated, OutOfMemory>
    ensures { IfOk result (λ e. e ≡ told_or cause (option_copied value.entry)) }
{
    match value {
        None => Ok(Evaluated::Fault(cause)),
        Some(value) => known(alloc, value),
    }
}

fn known(alloc: Global, value: &Value) -> Result<Evaluated, OutOfMemory>
    ensures { IfOk result (λ e. e ≡ Evaluated.Known value.now) }
{
    match value.copy(alloc) {
        Ok(copy) => Ok(Evaluated::Known(copy)),
        Err(_) => Err(OutOfMemory),
    }
}

/// Reads the variable of a number, if there is one.
pub(crate) fn read_variable(
    alloc: Global,
    variables: &mut Vars,
    number: u32,
) -> Result<Evaluated, OutOfMemory>
    ensures answer { IfOk result (λ e. e ≡ told_or 7 (variable_value variables.old number)) }
    ensures reads { IfOk result (λ e. variables.new ≡ variable_read variables.old number) }
    ensures same { OnErr result (variables.new ≡ variables.old) }
{
    if number as usize >= variables.count() {
        return Ok(Evaluated::Fault(7));
    }
    let told = told_or(alloc, 7, variables.value(number))?;
    variables.read(number);
    Ok(told)
}
