// The statements of components as documents write them.
ghost use Rattle.std.specs.Prelude.{◌≡◌, ◌++◌, map, length, All, IfOk, OnOk, option_map};
ghost use Rattle.dfdl_components.specs.Sites.{IsSite};
ghost use Rattle.dfdl_chains.specs.Settings.{IsSetterOf};
ghost use Rattle.dfdl_chains.specs.Shown.{AreNumbers};
ghost use Rattle.dfdl_variables.specs.Variables.{variables_of};
ghost use Rattle.dfdl_written.specs.Noting as spec;

use crate::expressions::push_expressions;
use crate::noted::{Noted, Stated};
use crate::reading::{attribute, given_by, text_or_empty};
use crate::variables::sound_type;
use dfdl_breaches::{CheckList, SettingList, TestList};
use dfdl_chains::{Numbers, Setter};
use dfdl_checks::CheckForm;
use dfdl_components::{Schema, Site};
use dfdl_forms::Simple;
use dfdl_report::Place;
use dfdl_statements::{Source, Target};
use dfdl_terms::PatternTest;
use dfdl_value::TextValue;
use dfdl_variables::{Declared, variable_named};
use std::alloc::{AllocError, Global};

// A variable of a number, where it has a type.
fn target_by(number: u32, kind: Option<Simple>) -> Option<Target>
    ensures { result ≡ option_map (spec.target_with number) kind }
{
    match kind {
        Some(kind) => Some(Target { number, kind }),
        None => None,
    }
}

// The variable of a number, where its definition is sound.
fn target_of(variables: &[Declared], number: u32) -> Option<Target>
    ensures { result ≡ spec.target_of variables.now number }
{
    match variables.get(number as usize) {
        Some(variable) => target_by(number, sound_type(variable)),
        None => None,
    }
}

// The variable that a name names at an element, where its definition is sound.
fn target_named(
    schema: &Schema,
    numbers: &Numbers,
    variables: &[Declared],
    site: Site,
    name: &str,
) -> Option<Target>
    requires site { IsSite schema.now site }
    requires numbers { AreNumbers schema.now numbers.now }
    requires variables { variables.now ≡ variables_of schema.now }
    ensures { result ≡ spec.target_named schema.now site name.now }
{
    match variable_named(schema, numbers, variables, site, name) {
        Some(number) => target_of(variables, number),
        None => None,
    }
}

// The variable that a setVariable sets.
fn target_at(
    schema: &Schema,
    numbers: &Numbers,
    variables: &[Declared],
    site: Site,
) -> Option<Target>
    requires site { IsSite schema.now site }
    requires numbers { AreNumbers schema.now numbers.now }
    requires variables { variables.now ≡ variables_of schema.now }
    ensures { result ≡ spec.target_at schema.now site }
{
    match attribute(schema, site, "ref") {
        Some(name) => target_named(schema, numbers, variables, site, name),
        None => None,
    }
}

// What an instance begins with that a newVariableInstance opens, if with something of its own.
fn start_at(alloc: Global, schema: &Schema, site: Site) -> Result<Option<TextValue>, AllocError>
    requires { IsSite schema.now site }
    ensures { IfOk result (λ text. text ≡ spec.start_at schema.now site) }
{
    match given_by(schema, site, "defaultValue") {
        Some(text) => {
            let text = TextValue::from_str(alloc, text)?;
            Ok(Some(text))
        }
        None => Ok(None),
    }
}

// What a setVariable sets its variable to.
fn value_at(alloc: Global, schema: &Schema, site: Site) -> Result<TextValue, AllocError>
    requires { IsSite schema.now site }
    ensures { IfOk result (λ text. text ≡ spec.value_at schema.now site) }
{
    let text = text_or_empty(given_by(schema, site, "value"));
    let text = TextValue::from_str(alloc, text)?;
    Ok(text)
}

// A newVariableInstance, or a setVariable.
fn setter_source(
    alloc: Global,
    schema: &Schema,
    numbers: &Numbers,
    variables: &[Declared],
    opens: bool,
    site: Site,
) -> Result<Source, AllocError>
    requires site { IsSite schema.now site }
    requires numbers { AreNumbers schema.now numbers.now }
    requires variables { variables.now ≡ variables_of schema.now }
    ensures { IfOk result (λ source. source ≡ spec.setter_source schema.now opens site) }
{
    let variable = target_at(schema, numbers, variables, site);
    if opens {
        let text = start_at(alloc, schema, site)?;
        Ok(Source::Opening { variable, text })
    } else {
        let text = value_at(alloc, schema, site)?;
        Ok(Source::Setting { variable, text })
    }
}

// The same of a component that begins at this place.
fn setting(
    alloc: Global,
    schema: &Schema,
    numbers: &Numbers,
    variables: &[Declared],
    place: Place,
    setter: Setter,
) -> Result<Noted, AllocError>
    requires site { IsSite schema.now setter.site }
    requires numbers { AreNumbers schema.now numbers.now }
    requires variables { variables.now ≡ variables_of schema.now }
    ensures { IfOk result (λ noted. noted ≡ spec.noted_setting schema.now place setter) }
{
    let Setter { site, opens } = setter;
    Ok(Noted {
        source: setter_source(alloc, schema, numbers, variables, opens, site)?,
        place,
        site,
    })
}

// A test of an expression of a component that begins at this place.
fn check(place: Place, form: CheckForm) -> Noted
    ensures { result ≡ spec.noted_check place form }
{
    let CheckForm {
        document,
        element,
        discriminates,
        text,
        message,
    } = form;
    Noted {
        source: Source::Test {
            text,
            discriminates,
            message,
        },
        place,
        site: Site { document, element },
    }
}

// Adds the tests of patterns of a component that begins at this place.
fn push_tests(
    place: Place,
    site: Site,
    tests: Vec<PatternTest>,
    noted: &mut Vec<Noted>,
) -> Result<(), AllocError>
    ensures { OnOk result (noted.new.items ≡ noted.old.items ++ map (spec.noted_test place site) tests.items) }
{
    for test in tests {
        noted.push(Noted {
            source: Source::Pattern(test),
            place,
            site,
        })?;
    }
    Ok(())
}

// Adds what opens instances of variables and what sets variables at a component that begins at this place.
fn push_settings(
    alloc: Global,
    schema: &Schema,
    numbers: &Numbers,
    variables: &[Declared],
    place: Place,
    settings: &[Setter],
    noted: &mut Vec<Noted>,
) -> Result<(), AllocError>
    requires settings { All (IsSetterOf schema.now) settings.now }
    requires numbers { AreNumbers schema.now numbers.now }
    requires variables { variables.now ≡ variables_of schema.now }
    ensures { OnOk result (noted.new.items ≡ noted.old.items ++ map (spec.noted_setting schema.now place) settings.now) }
{
    for setter in settings {
        noted.push(setting(alloc, schema, numbers, variables, place, *setter)?)?;
    }
    Ok(())
}

// Adds the tests of expressions of a component that begins at this place.
fn push_checks(
    place: Place,
    checks: Vec<CheckForm>,
    noted: &mut Vec<Noted>,
) -> Result<(), AllocError>
    ensures { OnOk result (noted.new.items ≡ noted.old.items ++ map (spec.noted_check place) checks.items) }
{
    for form in checks {
        noted.push(check(place, form))?;
    }
    Ok(())
}

// Adds the statements before the expressions that are properties, of a component that begins at this place.
#[tactic(auto, using(crate::proofs::Told::three_pushed))]
fn push_parts(
    alloc: Global,
    schema: &Schema,
    numbers: &Numbers,
    variables: &[Declared],
    place: Place,
    site: Site,
    tests: TestList,
    settings: SettingList,
    checks: CheckList,
    noted: &mut Vec<Noted>,
) -> Result<(), AllocError>
    requires settings { All (IsSetterOf schema.now) settings }
    requires numbers { AreNumbers schema.now numbers.now }
    requires variables { variables.now ≡ variables_of schema.now }
    ensures { OnOk result (noted.new.items ≡ noted.old.items ++ spec.noted_parts schema.now place site tests settings checks) }
{
    push_tests(place, site, tests.into_vec(), noted)?;
    push_settings(
        alloc,
        schema,
        numbers,
        variables,
        place,
        settings.as_slice(),
        noted,
    )?;
    push_checks(place, checks.into_vec(), noted)?;
    Ok(())
}

// Adds the statements of a component.
fn push_stated(
    alloc: Global,
    schema: &Schema,
    numbers: &Numbers,
    variables: &[Declared],
    site: Site,
    stated: Stated,
    noted: &mut Vec<Noted>,
) -> Result<(), AllocError>
    requires site { IsSite schema.now site }
    requires stated { spec.StatesWithin schema.now stated }
    requires numbers { AreNumbers schema.now numbers.now }
    requires variables { variables.now ≡ variables_of schema.now }
    requires within { All (spec.IsNotedWithin schema.now) noted.old.items }
    ensures noted { OnOk result (noted.new.items ≡ noted.old.items ++ spec.noted_from schema.now site stated) }
    ensures within { OnOk result (All (spec.IsNotedWithin schema.now) noted.new.items) }
{
    let Stated {
        tests,
        settings,
        checks,
        output,
        calculation,
        measure,
        count,
        key,
    } = stated;
    let place = schema.place(site);
    push_parts(
        alloc, schema, numbers, variables, place, site, tests, settings, checks, noted,
    )?;
    push_expressions(
        alloc,
        schema,
        numbers,
        place,
        site,
        output,
        calculation,
        measure,
        count,
        key,
        noted,
    )?;
    Ok(())
}

/// The statements of some components, which state this, one after the other.
pub fn note(
    alloc: Global,
    schema: &Schema,
    numbers: &Numbers,
    variables: &[Declared],
    sites: &[Site],
    stated: Vec<Stated>,
) -> Result<Vec<Noted>, AllocError>
    requires sites { All (IsSite schema.now) sites.now }
    requires counted { length sites.now ≡ length stated.items }
    requires within { All (spec.StatesWithin schema.now) stated.items }
    requires numbers { AreNumbers schema.now numbers.now }
    requires variables { variables.now ≡ variables_of schema.now }
    ensures noted { IfOk result (λ noted. noted.items ≡ spec.noted_each schema.now sites.now stated.items) }
    ensures within { IfOk result (λ noted. All (spec.IsNotedWithin schema.now) noted.items) }
{
    let mut noted = Vec::new(alloc);
    let mut at = 0usize;
    for one in stated {
        let site = sites[at];
        push_stated(alloc, schema, numbers, variables, site, one, &mut noted)?;
        at += 1;
    }
    Ok(noted)
}
