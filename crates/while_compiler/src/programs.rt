//! Functions and programs.
ghost use Rattle.std.specs.Prelude.{◌≡◌, None, map, IfOk, IfErr, OnOk};
ghost use Rattle.gil_syntax.specs.View.{parts_view, proc_view};
ghost use Rattle.source_language.specs.Code.{code_view};
ghost use Rattle.source_language.specs.Limits.{IsLimitOf};
ghost use Rattle.while_lang.specs.View.{block_view, function_view, source_parts_view};
ghost use Rattle.while_compiler.specs.Compiled as compiled;
ghost use Rattle.while_compiler.specs.Valid as valid;

use crate::statements::block_code;
use crate::temporaries::block_temporaries;
use gil_syntax::{Body, Command, Parts, Proc, Procs};
use source_language::{
    SourceParts, TooMany, append, first_long, first_temporaries, null, nulls, put,
};
use std::alloc::{AllocError, Global};
use syntax_copy::{copy_preds, copy_specs, copy_texts};
use while_lang::{Function, Functions};

/// The commands of a function: its temporaries begin with Null, and at its end it returns Null.
fn body_code(alloc: Global, function: &Function) -> Result<Body, AllocError>
    ensures { IfOk result (λ code. code_view code ≡ (compiled.compiled_function (function_view function.now)).body) }
{
    let count = block_temporaries(&function.body)?;
    let names = first_temporaries(alloc, count)?;
    let mut code = nulls(alloc, function.at, &names)?;
    append(&mut code, block_code(alloc, names.len(), &function.body)?)?;
    put(&mut code, function.at, Command::Return(null()))?;
    Ok(code)
}

/// The procedure of a function.
fn procedure_of(alloc: Global, function: &Function) -> Result<Proc, AllocError>
    ensures { IfOk result (λ proc. proc_view proc ≡ compiled.compiled_function (function_view function.now)) }
{
    let body = body_code(alloc, function)?;
    let name = function.name.copy(alloc)?;
    let params = copy_texts(alloc, &function.params)?;
    Ok(Proc { name, params, body })
}

/// The procedures of functions.
fn procedures_of(alloc: Global, functions: &Functions) -> Result<Procs, AllocError>
    ensures { IfOk result (λ procs. map proc_view procs ≡ map compiled.compiled_function (map function_view functions.now)) }
{
    let functions = functions.as_slice();
    let mut procs = Procs::new(alloc);
    for function in functions {
        procs.push(procedure_of(alloc, function)?)?;
    }
    Ok(procs)
}

/// The parts of the compiled program, however long its procedures are.
pub(crate) fn parts_of(alloc: Global, source: &SourceParts<Function>) -> Result<Parts, AllocError>
    ensures { IfOk result (λ parts. parts_view parts ≡ compiled.compiled (source_parts_view source.now)) }
{
    let procs = procedures_of(alloc, &source.functions)?;
    let specs = copy_specs(alloc, &source.specs)?;
    let preds = copy_preds(alloc, &source.preds)?;
    Ok(Parts {
        procs,
        specs,
        preds,
    })
}

/// The byte at which the first of the functions begins whose procedure is too long.
fn too_long_at(functions: &[Function], procs: &[Proc]) -> Option<usize>
    requires { map proc_view procs.now ≡ map compiled.compiled_function (map function_view functions.now) }
    ensures { result ≡ valid.first_too_long (map function_view functions.now) }
{
    let function = functions.get(first_long(procs)?)?;
    Some(function.at as usize)
}

/// The parts of the compiled program, where no procedure is too long.
pub(crate) fn compiled_parts(
    alloc: Global,
    source: &SourceParts<Function>,
) -> Result<Parts, TooMany>
    ensures parts { IfOk result (λ parts. parts_view parts ≡ compiled.compiled (source_parts_view source.now)) }
    ensures short { OnOk result (valid.first_too_long (source_parts_view source.now).functions ≡ None) }
    ensures limit { IfErr result (λ e. IsLimitOf (valid.first_too_long (source_parts_view source.now).functions) e) }
{
    let parts = parts_of(alloc, source)?;
    match too_long_at(source.functions.as_slice(), parts.procs.as_slice()) {
        Some(at) => Err(TooMany::Limit(at)),
        None => Ok(parts),
    }
}
