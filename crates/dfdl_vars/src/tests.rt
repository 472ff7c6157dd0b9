use super::{VarDef, VarFault, VarValues, Vars};
use dfdl_forms::Simple;
use dfdl_value::{TextValue, Value};
use std::alloc::{AllocError, Global};
use std::test::Fail;

#[test]
fn values_of_many_variables(rt: HostRuntime) -> Result<(), Fail> {
    let mut values = VarValues::new(rt.alloc());
    assert!(rt; values.is_empty());
    for var in 0..5000 {
        values.push(var, Value::Uns(u128::from(var) * 3))?;
    }
    assert_eq!(rt; values.len(), 5000);
    assert_eq!(rt; values.pair(4999).0, 4999);
    assert!(rt; values.pair(4999).1 == Value::Uns(14997));
    Ok(())
}

#[test]
fn a_definition_holds_its_start(rt: HostRuntime) -> Result<(), Fail> {
    let size = VarDef {
        name: TextValue::from_str(rt.alloc(), "size")?,
        kind: Simple::Int,
        start: Some(Value::Int(-7)),
        external: true,
    };
    assert_eq!(rt; size.name.as_str(), "size");
    assert!(rt; size.start == Some(Value::Int(-7)));
    Ok(())
}

fn variable(alloc: Global) -> Result<VarDef, AllocError> {
    Ok(VarDef {
        name: TextValue::from_str(alloc, "size")?,
        kind: Simple::Int,
        start: Some(Value::Int(-7)),
        external: true,
    })
}

#[test]
fn an_instance_is_set_once_and_not_behind_a_read(rt: HostRuntime) -> Result<(), Fail> {
    let definitions = [variable(rt.alloc())?, variable(rt.alloc())?];
    let given = VarValues::new(rt.alloc());
    let mut vars = Vars::open(rt.alloc(), &definitions, &given, 0)?;
    assert!(rt; vars.value(0) == Some(&Value::Int(-7)));
    assert!(rt; vars.set(0, Value::Int(1)).is_ok());
    assert!(rt; vars.value(0) == Some(&Value::Int(1)));
    assert!(rt; vars.set(0, Value::Int(2)) == Err(VarFault::SetTwice));
    assert!(rt; vars.enter(1, None).is_err());
    Ok(())
}

// A mark, an instance of its own behind it that is set and left again, and one that is still open, and back to the mark.
#[test]
fn going_back_takes_away_what_was_done(rt: HostRuntime) -> Result<(), Fail> {
    let definitions = [variable(rt.alloc())?];
    let given = VarValues::new(rt.alloc());
    let mut vars = Vars::open(rt.alloc(), &definitions, &given, 2)?;
    let mark = vars.mark();
    assert!(rt; vars.enter(0, Some(Value::Int(5))).is_ok());
    assert!(rt; vars.value(0) == Some(&Value::Int(5)));
    vars.leave();
    assert!(rt; vars.value(0) == Some(&Value::Int(-7)));
    assert!(rt; vars.set(0, Value::Int(1)).is_ok());
    vars.read(0);
    assert!(rt; vars.enter(0, None).is_ok());
    vars.undo_to(mark);
    assert!(rt; vars.value(0) == Some(&Value::Int(-7)));
    assert!(rt; vars.set(0, Value::Int(3)).is_ok());
    assert!(rt; vars.value(0) == Some(&Value::Int(3)));
    Ok(())
}
