// The expressions that are properties of a component: the calculations of its value, and the questions that its rows ask.
ghost use Rattle.std.specs.Prelude.{◌≡◌, ◌++◌, [], ◌∷◌, All, IfOk, OnOk, option_map, unwrap_or};
ghost use Rattle.dfdl_components.specs.Sites.{IsSite};
ghost use Rattle.dfdl_chains.specs.Shown.{AreNumbers};
ghost use Rattle.dfdl_references.specs.Writers.{writer_of};
ghost use Rattle.dfdl_written.specs.Noting as spec;

use crate::calculating::calculated_type;
use crate::noted::Noted;
use dfdl_chains::{Numbers, chain_sites};
use dfdl_checks::MeasureForm;
use dfdl_components::{Schema, Site};
use dfdl_references::writer;
use dfdl_report::Place;
use dfdl_statements::{Asked, Source};
use dfdl_value::TextValue;
use std::alloc::{AllocError, Global};

// Where a chain of components writes a property, else its component's own element.
fn writer_in(schema: &Schema, chain: &[Site], name: &str, site: Site) -> Site
    requires site { IsSite schema.now site }
    requires chain { All (IsSite schema.now) chain.now }
    ensures site { result ≡ unwrap_or (writer_of schema.now chain.now name.now) site }
    ensures within { IsSite schema.now result }
{
    match writer(schema, chain, name) {
        Some(writer) => writer,
        None => site,
    }
}

// Where the expression is written that is a property of a component.
fn expression_site(
    alloc: Global,
    schema: &Schema,
    numbers: &Numbers,
    name: &str,
    site: Site,
) -> Result<Site, AllocError>
    requires site { IsSite schema.now site }
    requires numbers { AreNumbers schema.now numbers.now }
    ensures site { IfOk result (λ own. own ≡ spec.expression_site schema.now name.now site) }
    ensures within { IfOk result (IsSite schema.now) }
{
    let mut chain = Vec::new(alloc);
    chain_sites(schema, numbers, site, &mut chain)?;
    Ok(writer_in(schema, chain.as_slice(), name, site))
}

// The property by which a value is calculated, for writing or not.
fn calculating_property(output: bool) -> &'static str
    ensures { result.now ≡ spec.calculating_property output }
{
    if output {
        "outputValueCalc"
    } else {
        "inputValueCalc"
    }
}

// Adds the calculation of the value of a component that begins at this place, for writing or not.
fn push_calculation(
    alloc: Global,
    schema: &Schema,
    numbers: &Numbers,
    output: bool,
    place: Place,
    site: Site,
    text: TextValue,
    noted: &mut Vec<Noted>,
) -> Result<(), AllocError>
    requires site { IsSite schema.now site }
    requires numbers { AreNumbers schema.now numbers.now }
    ensures noted { OnOk result (noted.new.items ≡ noted.old.items ++ spec.noted_calculation schema.now output place site text ∷ []) }
    ensures within { OnOk result (spec.IsNotedWithin schema.now (spec.noted_calculation schema.now output place site text)) }
{
    let kind = calculated_type(schema, numbers, site);
    noted.push(Noted {
        source: Source::Calculation { kind, text, output },
        place,
        site: expression_site(alloc, schema, numbers, calculating_property(output), site)?,
    })?;
    Ok(())
}

// The same, where its value is calculated so.
fn push_calculations(
    alloc: Global,
    schema: &Schema,
    numbers: &Numbers,
    output: bool,
    place: Place,
    site: Site,
    calculation: Option<TextValue>,
    noted: &mut Vec<Noted>,
) -> Result<(), AllocError>
    requires site { IsSite schema.now site }
    requires numbers { AreNumbers schema.now numbers.now }
    ensures noted { OnOk result (noted.new.items ≡ noted.old.items ++ spec.noted_if (spec.noted_calculation schema.now output place site) calculation) }
    ensures within { OnOk result (All (spec.IsNotedWithin schema.now) (spec.noted_if (spec.noted_calculation schema.now output place site) calculation)) }
{
    let Some(text) = calculation else {
        return Ok(());
    };
    push_calculation(alloc, schema, numbers, output, place, site, text, noted)
}

// The property whose expression is asked.
fn property_asked(asked: Asked) -> &'static str
    ensures { result.now ≡ spec.property_asked asked }
{
    match asked {
        Asked::Length => "length",
        Asked::Count => "occursCount",
        Asked::Key => "choiceDispatchKey",
    }
}

// Adds a question of a component that begins at this place.
fn push_question(
    alloc: Global,
    schema: &Schema,
    numbers: &Numbers,
    place: Place,
    site: Site,
    asked: Asked,
    text: TextValue,
    noted: &mut Vec<Noted>,
) -> Result<(), AllocError>
    requires site { IsSite schema.now site }
    requires numbers { AreNumbers schema.now numbers.now }
    ensures noted { OnOk result (noted.new.items ≡ noted.old.items ++ spec.noted_question schema.now place site asked text ∷ []) }
    ensures within { OnOk result (spec.IsNotedWithin schema.now (spec.noted_question schema.now place site asked text)) }
{
    noted.push(Noted {
        source: Source::Question { asked, text },
        place,
        site: expression_site(alloc, schema, numbers, property_asked(asked), site)?,
    })?;
    Ok(())
}

// The same, where there is one.
fn push_questions(
    alloc: Global,
    schema: &Schema,
    numbers: &Numbers,
    place: Place,
    site: Site,
    asked: Asked,
    text: Option<TextValue>,
    noted: &mut Vec<Noted>,
) -> Result<(), AllocError>
    requires site { IsSite schema.now site }
    requires numbers { AreNumbers schema.now numbers.now }
    ensures noted { OnOk result (noted.new.items ≡ noted.old.items ++ spec.noted_if (spec.noted_question schema.now place site asked) text) }
    ensures within { OnOk result (All (spec.IsNotedWithin schema.now) (spec.noted_if (spec.noted_question schema.now place site asked) text)) }
{
    let Some(text) = text else {
        return Ok(());
    };
    push_question(alloc, schema, numbers, place, site, asked, text, noted)
}

// The expression of a length, where one tells it.
fn length_text(measure: Option<MeasureForm>) -> Option<TextValue>
    ensures { result ≡ option_map spec.length_text measure }
{
    match measure {
        Some(measure) => Some(measure.text),
        None => None,
    }
}

// Adds the questions that the rows of a component that begins at this place ask.
#[tactic(auto, using(crate::proofs::Told::three_pushed, crate::proofs::Told::three_within))]
fn push_asked(
    alloc: Global,
    schema: &Schema,
    numbers: &Numbers,
    place: Place,
    site: Site,
    measure: Option<MeasureForm>,
    count: Option<TextValue>,
    key: Option<TextValue>,
    noted: &mut Vec<Noted>,
) -> Result<(), AllocError>
    requires site { IsSite schema.now site }
    requires numbers { AreNumbers schema.now numbers.now }
    ensures noted { OnOk result (noted.new.items ≡ noted.old.items ++ spec.noted_questions schema.now place site measure count key) }
    ensures within { OnOk result (All (spec.IsNotedWithin schema.now) (spec.noted_questions schema.now place site measure count key)) }
{
    let length = length_text(measure);
    push_questions(
        alloc,
        schema,
        numbers,
        place,
        site,
        Asked::Length,
        length,
        noted,
    )?;
    push_questions(
        alloc,
        schema,
        numbers,
        place,
        site,
        Asked::Count,
        count,
        noted,
    )?;
    push_questions(alloc, schema, numbers, place, site, Asked::Key, key, noted)?;
    Ok(())
}

/// Adds the expressions that are properties of a component that begins at this place.
#[tactic(auto, using(crate::proofs::Told::three_pushed, crate::proofs::Told::three_within))]
pub(crate) fn push_expressions(
    alloc: Global,
    schema: &Schema,
    numbers: &Numbers,
    place: Place,
    site: Site,
    output: Option<TextValue>,
    calculation: Option<TextValue>,
    measure: Option<MeasureForm>,
    count: Option<TextValue>,
    key: Option<TextValue>,
    noted: &mut Vec<Noted>,
) -> Result<(), AllocError>
    requires site { IsSite schema.now site }
    requires numbers { AreNumbers schema.now numbers.now }
    ensures noted { OnOk result (noted.new.items ≡ noted.old.items ++ spec.noted_expressions schema.now place site output calculation measure count key) }
    ensures within { OnOk result (All (spec.IsNotedWithin schema.now) (spec.noted_expressions schema.now place site output calculation measure count key)) }
{
    push_calculations(alloc, schema, numbers, true, place, site, output, noted)?;
    push_calculations(
        alloc,
        schema,
        numbers,
        false,
        place,
        site,
        calculation,
        noted,
    )?;
    push_asked(
        alloc, schema, numbers, place, site, measure, count, key, noted,
    )?;
    Ok(())
}
