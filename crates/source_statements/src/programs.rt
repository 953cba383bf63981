//! Functions and programs.
ghost use Rattle.std.specs.Prelude.{◌≡◌, None, map, IfOk, IfErr, OnOk};
ghost use Rattle.gil_syntax.specs.View.{parts_view, proc_view};
ghost use Rattle.source_language.specs.Code.{code_view};
ghost use Rattle.source_language.specs.Limits.{IsLimitOf};
ghost use Rattle.source_language.specs.View.{function_view, source_parts_view};
ghost use Rattle.source_statements.specs.Compiled as compiled;
ghost use Rattle.source_statements.specs.View.{block_view};

use crate::counting::block_temporaries;
use crate::language::Language;
use crate::statements::block_code;
use crate::throwing::block_tries;
use crate::tree::Block;
use gil_syntax::{Body, Command, Parts, Proc, Procs};
use sequence::Sequence;
use source_language::{
    Function, SourceParts, TooMany, append, first_long, null, nulls, own_names, put,
};
use std::alloc::{AllocError, Global};
use syntax_copy::{copy_preds, copy_specs, copy_texts};

/// The commands of a function: the names that are none of the source begin with Null, and at its end it returns Null.
fn body_code<L: Language>(
    alloc: Global,
    function: &Function<Block<L::Expression, L::Simple>>,
) -> Result<Body, AllocError>
    ensures { IfOk result
        (λ code. code_view code
        ≡ (compiled.compiled_function L.codes (function_view (block_view L.expression_view L.simple_view) function.now)).body) }
{
    let count = block_temporaries::<L>(&function.body)?;
    let names = own_names(alloc, count, block_tries::<L>(&function.body))?;
    let mut code = nulls(alloc, function.at, &names)?;
    append(
        &mut code,
        block_code::<L>(alloc, None, names.len(), &function.body)?,
    )?;
    put(&mut code, function.at, Command::Return(null()))?;
    Ok(code)
}

/// The procedure of a function.
fn procedure_of<L: Language>(
    alloc: Global,
    function: &Function<Block<L::Expression, L::Simple>>,
) -> Result<Proc, AllocError>
    ensures { IfOk result
        (λ proc. proc_view proc
        ≡ compiled.compiled_function L.codes (function_view (block_view L.expression_view L.simple_view) function.now)) }
{
    let body = body_code::<L>(alloc, function)?;
    let name = function.name.copy(alloc)?;
    let params = copy_texts(alloc, &function.params)?;
    Ok(Proc { name, params, body })
}

/// The procedures of functions.
fn procedures_of<L: Language>(
    alloc: Global,
    functions: &Sequence<Function<Block<L::Expression, L::Simple>>>,
) -> Result<Procs, AllocError>
    ensures { IfOk result
        (λ procs. map proc_view procs
        ≡ map (compiled.compiled_function L.codes)
        (map (function_view (block_view L.expression_view L.simple_view)) functions.now)) }
{
    let functions = functions.as_slice();
    let mut procs = Procs::new(alloc);
    for function in functions {
        procs.push(procedure_of::<L>(alloc, function)?)?;
    }
    Ok(procs)
}

/// The parts of the compiled program, however long its procedures are.
pub fn parts_of<L: Language>(
    alloc: Global,
    source: &SourceParts<Function<Block<L::Expression, L::Simple>>>,
) -> Result<Parts, AllocError>
    ensures { IfOk result
        (λ parts. parts_view parts
        ≡ compiled.compiled L.codes (source_parts_view (function_view (block_view L.expression_view L.simple_view)) source.now)) }
{
    let procs = procedures_of::<L>(alloc, &source.functions)?;
    let specs = copy_specs(alloc, &source.specs)?;
    let preds = copy_preds(alloc, &source.preds)?;
    Ok(Parts {
        procs,
        specs,
        preds,
    })
}

/// The byte at which the first of the functions begins whose procedure is too long.
fn too_long_at<L: Language>(
    functions: &[Function<Block<L::Expression, L::Simple>>],
    procs: &[Proc],
) -> Option<usize>
    requires { map proc_view procs.now
        ≡ map (compiled.compiled_function L.codes) (map (function_view (block_view L.expression_view L.simple_view)) functions.now) }
    ensures { result ≡ compiled.first_too_long L.codes (map (function_view (block_view L.expression_view L.simple_view)) functions.now) }
{
    let function = functions.get(first_long(procs)?)?;
    Some(function.at as usize)
}

/// The parts of the compiled program, where no procedure is too long.
pub fn compiled_parts<L: Language>(
    alloc: Global,
    source: &SourceParts<Function<Block<L::Expression, L::Simple>>>,
) -> Result<Parts, TooMany>
    ensures parts { IfOk result
        (λ parts. parts_view parts
        ≡ compiled.compiled L.codes (source_parts_view (function_view (block_view L.expression_view L.simple_view)) source.now)) }
    ensures short { OnOk result
        (compiled.first_too_long L.codes
        (source_parts_view (function_view (block_view L.expression_view L.simple_view)) source.now).functions ≡ None) }
    ensures limit { IfErr result
        (λ e. IsLimitOf (compiled.first_too_long L.codes
        (source_parts_view (function_view (block_view L.expression_view L.simple_view)) source.now).functions) e) }
{
    let parts = parts_of::<L>(alloc, source)?;
    match too_long_at::<L>(source.functions.as_slice(), parts.procs.as_slice()) {
        Some(at) => Err(TooMany::Limit(at)),
        None => Ok(parts),
    }
}
