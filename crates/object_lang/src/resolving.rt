//! Programs in which names of functions are procedures.
ghost use Rattle.std.specs.Prelude.{◌≡◌, map, IfOk};
ghost use Rattle.source_language.specs.View.{logic_view, invariant_view, invariants_view};
ghost use Rattle.object_lang.specs.Resolved as resolved;
ghost use Rattle.object_lang.specs.Resolved.{names_function};
ghost use Rattle.object_lang.specs.View.{block_view, expression_view, function_view, simple_view, source_parts_view, statement_view};

use crate::assigning;
use crate::tree::{
    Block, Expressions, Function, Functions, PlacedStatement, SimpleStatement, Statement,
};
use gil_values::{Text, Value};
use object_operators::Expression;
use source_language::{Invariant, Logic, SourceParts};
use std::alloc::{AllocError, Global};
use syntax_copy::{copy_assertion, copy_params, copy_preds, copy_specs, copy_texts, copy_use};

/// What a name stands for.
fn resolved_name(
    alloc: Global,
    functions: &[Function],
    function: &Function,
    name: &Text,
) -> Result<Expression, AllocError>
    ensures { IfOk result (λ e. expression_view e
        ≡ resolved.resolved_name (names_function (map function_view functions.now) (function_view function.now)) name.now) }
{
    let copy = name.copy(alloc)?;
    if assigning::names_function(functions, function, name) {
        Ok(Expression::Constant(Value::Proc(copy)))
    } else {
        Ok(Expression::Variable(copy))
    }
}

fn resolved_expression(
    alloc: Global,
    functions: &[Function],
    function: &Function,
    expression: &Expression,
) -> Result<Expression, AllocError>
    ensures { IfOk result (λ e. expression_view e ≡ resolved.resolved_expression
        (names_function (map function_view functions.now) (function_view function.now)) (expression_view expression.now)) }
{
    match expression {
        Expression::Constant(value) => Ok(Expression::Constant(value.copy(alloc)?)),
        Expression::Variable(name) => resolved_name(alloc, functions, function, name),
        Expression::Brackets(inner) => {
            let inner = resolved_expression(alloc, functions, function, inner)?;
            Ok(Expression::Brackets(Box::new(alloc, inner)?))
        }
        Expression::Prefixed(operator, inner) => {
            let inner = resolved_expression(alloc, functions, function, inner)?;
            Ok(Expression::Prefixed(*operator, Box::new(alloc, inner)?))
        }
        Expression::Joined(operator, left, right) => {
            let left = resolved_expression(alloc, functions, function, left)?;
            let right = resolved_expression(alloc, functions, function, right)?;
            Ok(Expression::Joined(*operator, Box::new(alloc, left)?, Box::new(alloc, right)?))
        }
        Expression::Skipping(connective, left, right) => {
            let left = resolved_expression(alloc, functions, function, left)?;
            let right = resolved_expression(alloc, functions, function, right)?;
            Ok(Expression::Skipping(*connective, Box::new(alloc, left)?, Box::new(alloc, right)?))
        }
    }
}

fn resolved_expressions(
    alloc: Global,
    functions: &[Function],
    function: &Function,
    expressions: &Expressions,
) -> Result<Expressions, AllocError>
    ensures { IfOk result (λ es. map expression_view es ≡ map (resolved.resolved_expression
        (names_function (map function_view functions.now) (function_view function.now))) (map expression_view expressions.now)) }
{
    let mut list = Expressions::new(alloc);
    for expression in expressions.as_slice() {
        list.push(resolved_expression(alloc, functions, function, expression)?)?;
    }
    Ok(list)
}

fn resolved_simple(
    alloc: Global,
    functions: &[Function],
    function: &Function,
    simple: &SimpleStatement,
) -> Result<SimpleStatement, AllocError>
    ensures { IfOk result (λ c. simple_view c ≡ resolved.resolved_simple
        (names_function (map function_view functions.now) (function_view function.now)) (simple_view simple.now)) }
{
    match simple {
        SimpleStatement::Assign(target, value) => {
            let value = resolved_expression(alloc, functions, function, value)?;
            Ok(SimpleStatement::Assign(target.copy(alloc)?, value))
        }
        SimpleStatement::Input(target, kind) => {
            Ok(SimpleStatement::Input(target.copy(alloc)?, *kind))
        }
        SimpleStatement::Create(target, prototype) => {
            let prototype = resolved_expression(alloc, functions, function, prototype)?;
            Ok(SimpleStatement::Create(target.copy(alloc)?, prototype))
        }
        SimpleStatement::Proto(target, object) => {
            let object = resolved_expression(alloc, functions, function, object)?;
            Ok(SimpleStatement::Proto(target.copy(alloc)?, object))
        }
        SimpleStatement::Has(target, object, name) => {
            let object = resolved_expression(alloc, functions, function, object)?;
            let name = resolved_expression(alloc, functions, function, name)?;
            Ok(SimpleStatement::Has(target.copy(alloc)?, object, name))
        }
        SimpleStatement::Call(target, callee, arguments) => {
            let callee = resolved_expression(alloc, functions, function, callee)?;
            let arguments = resolved_expressions(alloc, functions, function, arguments)?;
            Ok(SimpleStatement::Call(target.copy(alloc)?, callee, arguments))
        }
        SimpleStatement::Set(object, name, value) => {
            let object = resolved_expression(alloc, functions, function, object)?;
            let name = resolved_expression(alloc, functions, function, name)?;
            let value = resolved_expression(alloc, functions, function, value)?;
            Ok(SimpleStatement::Set(object, name, value))
        }
        SimpleStatement::Delete(object, name) => {
            let object = resolved_expression(alloc, functions, function, object)?;
            let name = resolved_expression(alloc, functions, function, name)?;
            Ok(SimpleStatement::Delete(object, name))
        }
        SimpleStatement::SetProto(object, prototype) => {
            let object = resolved_expression(alloc, functions, function, object)?;
            let prototype = resolved_expression(alloc, functions, function, prototype)?;
            Ok(SimpleStatement::SetProto(object, prototype))
        }
        SimpleStatement::Fail(value) => {
            let value = resolved_expression(alloc, functions, function, value)?;
            Ok(SimpleStatement::Fail(value))
        }
        SimpleStatement::Throw(value) => {
            let value = resolved_expression(alloc, functions, function, value)?;
            Ok(SimpleStatement::Throw(value))
        }
    }
}

/// The same invariant.
fn same_invariant(alloc: Global, invariant: &Invariant) -> Result<Invariant, AllocError>
    ensures { IfOk result (λ i. invariant_view i ≡ invariant_view invariant.now) }
{
    Ok(Invariant {
        names: copy_texts(alloc, &invariant.names)?,
        logicals: copy_params(alloc, &invariant.logicals)?,
        assertion: copy_assertion(alloc, &invariant.assertion)?,
    })
}

/// The same logic command.
fn copy_logic(alloc: Global, logic: &Logic) -> Result<Logic, AllocError>
    ensures { IfOk result (λ l. logic_view l ≡ logic_view logic.now) }
{
    match logic {
        Logic::Fold(used) => Ok(Logic::Fold(copy_use(alloc, used)?)),
        Logic::Unfold(used) => Ok(Logic::Unfold(copy_use(alloc, used)?)),
        Logic::Assert(assertion) => Ok(Logic::Assert(copy_assertion(alloc, assertion)?)),
        Logic::Invariant(invariant) => Ok(Logic::Invariant(same_invariant(alloc, invariant)?)),
    }
}

/// The same invariant, if there is one.
fn copy_invariant(
    alloc: Global,
    invariant: &Option<Invariant>,
) -> Result<Option<Invariant>, AllocError>
    ensures { IfOk result (λ i. invariants_view i ≡ invariants_view invariant.now) }
{
    match invariant {
        None => Ok(None),
        Some(invariant) => Ok(Some(same_invariant(alloc, invariant)?)),
    }
}

#[cycle(resolving)]
fn resolved_statement(
    alloc: Global,
    functions: &[Function],
    function: &Function,
    statement: &Statement,
) -> Result<Statement, AllocError>
    ensures { IfOk result (λ c. statement_view c ≡ resolved.resolved_statement
        (names_function (map function_view functions.now) (function_view function.now)) (statement_view statement.now)) }
{
    match statement {
        Statement::Simple(simple) => {
            let simple = resolved_simple(alloc, functions, function, simple)?;
            Ok(Statement::Simple(simple))
        }
        Statement::Assert(condition) => {
            let condition = resolved_expression(alloc, functions, function, condition)?;
            Ok(Statement::Assert(condition))
        }
        Statement::Assume(condition) => {
            let condition = resolved_expression(alloc, functions, function, condition)?;
            Ok(Statement::Assume(condition))
        }
        Statement::If(condition, body, other) => {
            let condition = resolved_expression(alloc, functions, function, condition)?;
            let body = resolved_block(alloc, functions, function, body)?;
            let other = resolved_block(alloc, functions, function, other)?;
            Ok(Statement::If(condition, body, other))
        }
        Statement::While(condition, invariant, body) => {
            let condition = resolved_expression(alloc, functions, function, condition)?;
            let invariant = copy_invariant(alloc, invariant)?;
            let body = resolved_block(alloc, functions, function, body)?;
            Ok(Statement::While(condition, invariant, body))
        }
        Statement::Return(value) => {
            let value = resolved_expression(alloc, functions, function, value)?;
            Ok(Statement::Return(value))
        }
        Statement::Logic(logic) => Ok(Statement::Logic(copy_logic(alloc, logic)?)),
        Statement::Try(body, target, handler) => {
            let body = resolved_block(alloc, functions, function, body)?;
            let handler = resolved_block(alloc, functions, function, handler)?;
            Ok(Statement::Try(body, target.copy(alloc)?, handler))
        }
    }
}

#[cycle(resolving)]
fn resolved_block(
    alloc: Global,
    functions: &[Function],
    function: &Function,
    block: &Block,
) -> Result<Block, AllocError>
    ensures { IfOk result (λ b. block_view b ≡ resolved.resolved_block
        (names_function (map function_view functions.now) (function_view function.now)) (block_view block.now)) }
{
    let mut list = Block::new(alloc);
    for placed in block.as_slice() {
        let statement = resolved_statement(alloc, functions, function, &placed.statement)?;
        let at = placed.at;
        list.push(PlacedStatement { at, statement })?;
    }
    Ok(list)
}

fn resolved_function(
    alloc: Global,
    functions: &[Function],
    function: &Function,
) -> Result<Function, AllocError>
    ensures { IfOk result (λ f. function_view f
        ≡ resolved.resolved_function (map function_view functions.now) (function_view function.now)) }
{
    let name = function.name.copy(alloc)?;
    let params = copy_texts(alloc, &function.params)?;
    let body = resolved_block(alloc, functions, function, &function.body)?;
    let at = function.at;
    Ok(Function {
        name,
        params,
        body,
        at,
    })
}

fn resolved_functions(alloc: Global, functions: &[Function]) -> Result<Functions, AllocError>
    ensures { IfOk result (λ fs. map function_view fs
        ≡ map (resolved.resolved_function (map function_view functions.now)) (map function_view functions.now)) }
{
    let mut list = Functions::new(alloc);
    for function in functions {
        list.push(resolved_function(alloc, functions, function)?)?;
    }
    Ok(list)
}

/// The program in which names of functions are procedures.
pub fn resolved(
    alloc: Global,
    source: &SourceParts<Function>,
) -> Result<SourceParts<Function>, AllocError>
    ensures { IfOk result (λ parts. source_parts_view parts ≡ resolved.resolved (source_parts_view source.now)) }
{
    let functions = resolved_functions(alloc, source.functions.as_slice())?;
    let specs = copy_specs(alloc, &source.specs)?;
    let preds = copy_preds(alloc, &source.preds)?;
    Ok(SourceParts {
        functions,
        specs,
        preds,
    })
}
