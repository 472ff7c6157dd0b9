// What is made of a statement that a schema writes, where it stands.
ghost use Rattle.std.specs.Prelude.{◌≡◌, ℕ, List, [], ◌∷◌, Option, Ok, Err, IfOk};
ghost use Rattle.dfdl_value.specs.ReadValues.{reading_of};
ghost use Rattle.dfdl_expressions.specs.declared.node.Node.TheVariants as NodeOf;
ghost use Rattle.dfdl_expression_tree.specs.Readings.{HasTree};
ghost use Rattle.dfdl_expression_tree.specs.Trees.{Formula};
ghost use Rattle.dfdl_statements.specs.Texts.{IsReading, ReadsTexts};
ghost use Rattle.dfdl_statements.specs.Making as making;
ghost use Rattle.dfdl_statements.specs.MakingShown as shown;
ghost use Rattle.dfdl_statements.specs.MakingShown.{Gives};

use crate::braces::unbraced;
use crate::fault::Fault;
use crate::prefixes::names_unbound;
use crate::written::{Asked, Source, Target};
use dfdl_expression_compile::{Resolved, resolve};
use dfdl_expression_tree::laws::a_text_has_one_tree;
use dfdl_expression_tree::{ExpressionFault, Tree, parse};
use dfdl_expression_types::{Statics, TypeFault, Types, ValueType};
use dfdl_expressions::{Expression, Node, build};
use dfdl_report::SchemaCause;
use dfdl_scope::{is_expression, literal};
use dfdl_terms::{Calculation, ExpressionTest, Opening, Question, Setting, Statement};
use dfdl_value::{ReadFault, Simple, TextValue, Value};
use std::alloc::{AllocError, Global};

// What is answered where a text is no expression.
fn malformed(fault: ExpressionFault) -> Fault
    ensures { result ≡ shown.malformed fault }
{
    match fault {
        ExpressionFault::Malformed { .. } => Fault::Cause(SchemaCause::ExpressionMalformed),
        ExpressionFault::OutOfMemory => Fault::OutOfMemory,
    }
}

// What is answered where something in an expression doesn't fit.
fn unfit(fault: TypeFault) -> Fault
    ensures { result ≡ shown.unfit fault }
{
    match fault {
        TypeFault::Types => Fault::Cause(SchemaCause::ExpressionType),
        TypeFault::NoPath => Fault::Cause(SchemaCause::PathNowhere),
        TypeFault::NoVariable => Fault::Cause(SchemaCause::VariableMalformed),
        TypeFault::OutOfMemory => Fault::OutOfMemory,
    }
}

// An expression where a value of some types is wanted.
fn fitting(resolved: Resolved, wanted: Types) -> Result<Expression, Fault>
    ensures { Gives (making.fitting resolved.types wanted resolved.expression) result }
{
    let Resolved { expression, types } = resolved;
    if types.both(wanted).is_empty() {
        return Err(Fault::Cause(SchemaCause::ExpressionType));
    }
    Ok(expression)
}

// The expression of a text's tree, where a value of some types is wanted.
fn compiled_tree(
    alloc: Global,
    statics: &Statics<'_>,
    wanted: Types,
    text: &str,
    tree: &Tree,
) -> Result<Expression, Fault>
    requires tree { HasTree text.now tree.now.nodes.items }
    ensures { (found : Option Formula) → IsReading text.now found → Gives (making.compiled statics.now wanted text.now found) result }
{
    a_text_has_one_tree();
    if names_unbound(statics, text, tree) {
        return Err(Fault::Cause(SchemaCause::ExpressionMalformed));
    }
    match resolve(alloc, text, tree, statics) {
        Ok(resolved) => fitting(resolved, wanted),
        Err(fault) => Err(unfit(fault)),
    }
}

// The expression of a text, where a value of some types is wanted.
fn compiled(
    alloc: Global,
    statics: &Statics<'_>,
    wanted: Types,
    text: &str,
) -> Result<Expression, Fault>
    ensures { (found : Option Formula) → IsReading text.now found → Gives (making.compiled statics.now wanted text.now found) result }
{
    match parse(alloc, text) {
        Ok(tree) => compiled_tree(alloc, statics, wanted, text, &tree),
        Err(fault) => Err(malformed(fault)),
    }
}

// The expression of a text with its braces.
fn expression(
    alloc: Global,
    statics: &Statics<'_>,
    wanted: Types,
    text: &str,
) -> Result<Expression, Fault>
    ensures { (read : List ℕ → Option Formula) → ReadsTexts read → Gives (making.expression read statics.now wanted text.now) result }
{
    match unbraced(text) {
        Some(inner) => compiled(alloc, statics, wanted, inner),
        None => Err(Fault::Cause(SchemaCause::ExpressionMalformed)),
    }
}

// The node of a value.
fn constant_nodes(alloc: Global, value: Value) -> Result<Vec<Node>, AllocError>
    ensures { IfOk result (λ nodes. nodes.items ≡ NodeOf.Constant value ∷ []) }
{
    let mut nodes = Vec::new(alloc);
    nodes.push(Node::Constant(value))?;
    Ok(nodes)
}

// The expression that is a value.
fn constant_of(alloc: Global, value: Value) -> Result<Expression, Fault>
    ensures { Gives (Ok (NodeOf.Constant value ∷ [])) result }
{
    match build(constant_nodes(alloc, value)?) {
        Some(expression) => Ok(expression),
        None => unreachable!(),
    }
}

// What is answered where a text is no value.
fn unread(fault: ReadFault) -> Fault
    ensures { result ≡ shown.unread fault }
{
    match fault {
        ReadFault::NotAValue | ReadFault::PastType => Fault::Cause(SchemaCause::VariableMalformed),
        ReadFault::OutOfMemory => Fault::OutOfMemory,
    }
}

// The expression that is the value of a text.
fn constant(alloc: Global, kind: Simple, text: &str) -> Result<Expression, Fault>
    ensures { Gives (making.constant (reading_of kind text.now)) result }
{
    match Value::read(alloc, kind, text) {
        Ok(value) => constant_of(alloc, value),
        Err(fault) => Err(unread(fault)),
    }
}

// The expression of what sets a variable of this type.
fn setting(
    alloc: Global,
    statics: &Statics<'_>,
    kind: Simple,
    text: &str,
) -> Result<Expression, Fault>
    ensures { (read : List ℕ → Option Formula) → ReadsTexts read → Gives (making.setting read statics.now kind text.now) result }
{
    if is_expression(text) {
        expression(alloc, statics, Types::only(ValueType::of(kind)), text)
    } else {
        constant(alloc, kind, literal(text))
    }
}

// A test of an expression.
fn test_of(
    found: Result<Expression, Fault>,
    discriminates: bool,
    message: Option<TextValue>,
) -> Result<Statement, Fault>
    ensures { (due : making.Nodes) → Gives due found → Gives (making.as_test discriminates message due) result }
{
    match found {
        Ok(expression) => Ok(Statement::Expression(ExpressionTest {
            expression,
            discriminates,
            message,
        })),
        Err(fault) => Err(fault),
    }
}

// What sets a variable by an expression.
fn setting_of(found: Result<Expression, Fault>, target: Target) -> Result<Statement, Fault>
    ensures { (due : making.Nodes) → Gives due found → Gives (making.as_setting target due) result }
{
    match found {
        Ok(expression) => Ok(Statement::Setting(Setting {
            variable: target.number,
            kind: target.kind,
            expression,
        })),
        Err(fault) => Err(fault),
    }
}

// A calculated value of a type, for writing alone or not.
fn calculation_of(
    found: Result<Expression, Fault>,
    kind: Simple,
    output: bool,
) -> Result<Statement, Fault>
    ensures answer { (due : making.Nodes) → Gives due found → Gives (making.as_calculation kind output due) result }
    ensures kind { IfOk result (making.IsCalculationOf kind output) }
{
    match found {
        Ok(expression) => Ok(Statement::Calculation(Calculation {
            kind,
            expression,
            output,
        })),
        Err(fault) => Err(fault),
    }
}

// What a row asks for.
fn question_of(found: Result<Expression, Fault>) -> Result<Statement, Fault>
    ensures answer { (due : making.Nodes) → Gives due found → Gives (making.as_question due) result }
    ensures kind { IfOk result making.IsQuestion }
{
    match found {
        Ok(expression) => Ok(Statement::Question(Question { expression })),
        Err(fault) => Err(fault),
    }
}

// The types of the values that answer what a row asks for.
fn types_asked(asked: Asked) -> Types
    ensures { result ≡ making.types_asked asked }
{
    match asked {
        Asked::Length => Types::only(ValueType::Number),
        Asked::Count => Types::only(ValueType::Number),
        Asked::Key => Types::every(),
    }
}

// What sets a variable, if there is one.
fn setting_made(
    alloc: Global,
    statics: &Statics<'_>,
    variable: Option<Target>,
    text: &str,
) -> Result<Statement, Fault>
    ensures { (read : List ℕ → Option Formula) → ReadsTexts read → Gives (making.setting_made read statics.now variable text.now) result }
{
    match variable {
        Some(target) => setting_of(setting(alloc, statics, target.kind, text), target),
        None => Err(Fault::Cause(SchemaCause::VariableMalformed)),
    }
}

// What opens an instance by an expression.
fn opening_of(found: Result<Expression, Fault>, target: Target) -> Result<Statement, Fault>
    ensures { (due : making.Nodes) → Gives due found → Gives (making.as_opening target due) result }
{
    match found {
        Ok(expression) => Ok(Statement::Opening(Opening {
            variable: target.number,
            kind: target.kind,
            start: Some(expression),
        })),
        Err(fault) => Err(fault),
    }
}

// What opens an instance that begins with what the variable does.
fn bare_opening(target: Target) -> Statement
    ensures { result ≡ making.bare_opening target }
{
    Statement::Opening(Opening {
        variable: target.number,
        kind: target.kind,
        start: None,
    })
}

// What opens an instance of a variable.
fn opening_with(
    alloc: Global,
    statics: &Statics<'_>,
    target: Target,
    text: &Option<TextValue>,
) -> Result<Statement, Fault>
    ensures { (read : List ℕ → Option Formula) → ReadsTexts read → Gives (making.opening_with read statics.now target text.now) result }
{
    match text {
        Some(text) => opening_of(setting(alloc, statics, target.kind, text.as_str()), target),
        None => Ok(bare_opening(target)),
    }
}

// What opens an instance of a variable, if there is one.
fn opening_made(
    alloc: Global,
    statics: &Statics<'_>,
    variable: Option<Target>,
    text: &Option<TextValue>,
) -> Result<Statement, Fault>
    ensures { (read : List ℕ → Option Formula) → ReadsTexts read → Gives (making.opening_made read statics.now variable text.now) result }
{
    match variable {
        Some(target) => opening_with(alloc, statics, target, text),
        None => Err(Fault::Cause(SchemaCause::VariableMalformed)),
    }
}

/// The statement that is made of what is written, where it sees this.
pub(crate) fn make(alloc: Global, statics: &Statics<'_>, source: Source) -> Result<Statement, Fault>
    ensures answer { (read : List ℕ → Option Formula) → ReadsTexts read → Gives (making.made read statics.now source) result }
    ensures kind { IfOk result (making.IsOfSource source) }
{
    match source {
        Source::Pattern(test) => Ok(Statement::Pattern(test)),
        Source::Test {
            text,
            discriminates,
            message,
        } => {
            let wanted = Types::only(ValueType::Truth);
            let found = expression(alloc, statics, wanted, text.as_str());
            test_of(found, discriminates, message)
        }
        Source::Setting { variable, text } => setting_made(alloc, statics, variable, text.as_str()),
        Source::Opening { variable, text } => opening_made(alloc, statics, variable, &text),
        Source::Calculation { kind, text, output } => {
            let wanted = Types::only(ValueType::of(kind));
            let found = expression(alloc, statics, wanted, text.as_str());
            calculation_of(found, kind, output)
        }
        Source::Question { asked, text } => {
            let found = expression(alloc, statics, types_asked(asked), text.as_str());
            question_of(found)
        }
    }
}

// An expression that nothing asks for.
fn never_asked(alloc: Global) -> Result<Expression, Fault>
    ensures { Gives (Ok making.never_asked) result }
{
    constant_of(alloc, Value::Truth(true))
}

/// The statement that stands for one which no row has.
pub(crate) fn unused(alloc: Global, source: Source) -> Result<Statement, Fault>
    ensures answer { Gives (Ok (making.unused source)) result }
    ensures kind { IfOk result (making.IsOfSource source) }
{
    match source {
        Source::Pattern(test) => Ok(Statement::Pattern(test)),
        Source::Test {
            discriminates,
            message,
            ..
        } => test_of(never_asked(alloc), discriminates, message),
        Source::Setting { .. } => test_of(never_asked(alloc), false, None),
        Source::Opening { .. } => test_of(never_asked(alloc), false, None),
        Source::Calculation { kind, output, .. } => calculation_of(
            never_asked(alloc),
            kind,
            output,
        ),
        Source::Question { .. } => question_of(never_asked(alloc)),
    }
}

// The cause of a refusal.
fn cause_of(fault: Fault) -> Result<Option<SchemaCause>, AllocError>
    ensures { (due : making.Nodes) → Gives due (Err fault) → IfOk result (λ cause. cause ≡ shown.cause_in due) }
{
    match fault {
        Fault::Cause(cause) => Ok(Some(cause)),
        Fault::OutOfMemory => Err(AllocError),
    }
}

// Why there is no expression, if there is none.
fn told(found: Result<Expression, Fault>) -> Result<Option<SchemaCause>, AllocError>
    ensures { (due : making.Nodes) → Gives due found → IfOk result (λ cause. cause ≡ shown.cause_in due) }
{
    match found {
        Ok(_) => Ok(None),
        Err(fault) => cause_of(fault),
    }
}

// Why a variable can't be set so, if it can't.
fn setting_told(
    alloc: Global,
    statics: &Statics<'_>,
    variable: Option<Target>,
    text: &str,
) -> Result<Option<SchemaCause>, AllocError>
    ensures { (read : List ℕ → Option Formula) → ReadsTexts read
        → IfOk result (λ cause. cause ≡ shown.cause_in (making.setting_made read statics.now variable text.now)) }
{
    match variable {
        Some(target) => told(setting(alloc, statics, target.kind, text)),
        None => Ok(Some(SchemaCause::VariableMalformed)),
    }
}

// Why no instance of a variable can begin so, if none can.
fn start_told(
    alloc: Global,
    statics: &Statics<'_>,
    target: Target,
    text: &Option<TextValue>,
) -> Result<Option<SchemaCause>, AllocError>
    ensures { (read : List ℕ → Option Formula) → ReadsTexts read
        → IfOk result (λ cause. cause ≡ shown.cause_in (making.opening_with read statics.now target text.now)) }
{
    match text {
        Some(text) => told(setting(alloc, statics, target.kind, text.as_str())),
        None => Ok(None),
    }
}

// Why no instance of a variable can be opened so, if none can.
fn opening_told(
    alloc: Global,
    statics: &Statics<'_>,
    variable: Option<Target>,
    text: &Option<TextValue>,
) -> Result<Option<SchemaCause>, AllocError>
    ensures { (read : List ℕ → Option Formula) → ReadsTexts read
        → IfOk result (λ cause. cause ≡ shown.cause_in (making.opening_made read statics.now variable text.now)) }
{
    match variable {
        Some(target) => start_told(alloc, statics, target, text),
        None => Ok(Some(SchemaCause::VariableMalformed)),
    }
}

/// Why no statement is made of what is written, where it sees this, if none is.
pub(crate) fn judge(
    alloc: Global,
    statics: &Statics<'_>,
    source: &Source,
) -> Result<Option<SchemaCause>, AllocError>
    ensures { (read : List ℕ → Option Formula) → ReadsTexts read
        → IfOk result (λ cause. cause ≡ shown.cause_in (making.made read statics.now source.now)) }
{
    match source {
        Source::Pattern(_) => Ok(None),
        Source::Test { text, .. } => {
            let wanted = Types::only(ValueType::Truth);
            told(expression(alloc, statics, wanted, text.as_str()))
        }
        Source::Setting { variable, text } => {
            setting_told(alloc, statics, *variable, text.as_str())
        }
        Source::Opening { variable, text } => opening_told(alloc, statics, *variable, text),
        Source::Calculation { kind, text, .. } => {
            let wanted = Types::only(ValueType::of(*kind));
            told(expression(alloc, statics, wanted, text.as_str()))
        }
        Source::Question { asked, text } => told(expression(
            alloc,
            statics,
            types_asked(*asked),
            text.as_str(),
        )),
    }
}
