//! Parameters and logical variables.
ghost use Rattle.std.specs.Prelude.{◌≡◌};
ghost use Rattle.value_text.specs.Reading.{Gives};
ghost use Rattle.gil_syntax.specs.declared.assertions.Param as declared;
ghost use Rattle.specification_text.specs.Reading as spec;

use crate::until::elements_until;
use expression_text::marked_name_at;
use gil_syntax::{Param, Params, SpecSort};
use list_text::{Reader, list_at};
use std::alloc::Global;
use value_text::{ReadFault, behind, expect, name_at};

struct ParamReader;

impl Reader for ParamReader {
    type Item = Param;

    ghost Pure = { declared.Param };

    ghost view = { λ q. q };

    ghost reading = { spec.param_at };

    fn item_at(alloc: Global, bytes: &[u8]) -> Result<(Param, &[u8]), ReadFault> {
        param_at(alloc, bytes)
    }
}

struct LogicalReader;

impl Reader for LogicalReader {
    type Item = Param;

    ghost Pure = { declared.Param };

    ghost view = { λ q. q };

    ghost reading = { spec.logical_at };

    fn item_at(alloc: Global, bytes: &[u8]) -> Result<(Param, &[u8]), ReadFault> {
        logical_at(alloc, bytes)
    }
}

/// The parameters up to the closing parenthesis.
pub(crate) fn params_at(alloc: Global, bytes: &[u8]) -> Result<(Params, &[u8]), ReadFault>
    ensures { Gives (λ x. (x.0, x.1.now)) result (spec.params_at bytes.now) }
{
    elements_until::<ParamReader>(alloc, b')', bytes)
}

/// The logical variables at the front, in brackets.
pub(crate) fn logicals_at(alloc: Global, bytes: &[u8]) -> Result<(Params, &[u8]), ReadFault>
    ensures { Gives (λ x. (x.0, x.1.now)) result (spec.logicals_at bytes.now) }
{
    list_at::<LogicalReader>(alloc, bytes)
}

/// The parameter at the front.
#[tactic(auto, unfolding(crate::specs::Reading::param_at))]
fn param_at(alloc: Global, bytes: &[u8]) -> Result<(Param, &[u8]), ReadFault>
    ensures { Gives (λ x. (x.0, x.1.now)) result (spec.param_at bytes.now) }
{
    let (name, rest) = name_at(alloc, bytes)?;
    let (sort, rest) = sort_at(rest)?;
    Ok((Param { name, sort }, rest))
}

/// The logical variable at the front.
#[tactic(auto, unfolding(crate::specs::Reading::logical_at))]
fn logical_at(alloc: Global, bytes: &[u8]) -> Result<(Param, &[u8]), ReadFault>
    ensures { Gives (λ x. (x.0, x.1.now)) result (spec.logical_at bytes.now) }
{
    let (name, rest) = marked_name_at(alloc, bytes)?;
    let (sort, rest) = sort_at(rest)?;
    Ok((Param { name, sort }, rest))
}

/// The sort behind a name: any, where none stands there.
fn sort_at(bytes: &[u8]) -> Result<(SpecSort, &[u8]), ReadFault>
    ensures { Gives (λ x. (x.0, x.1.now)) result (spec.sort_at bytes.now) }
{
    if let Some(rest) = behind(": ", bytes) {
        return word_at(rest);
    }
    Ok((SpecSort::Any, bytes))
}

/// The word of a sort at the front, which isn't that of any.
fn word_at(bytes: &[u8]) -> Result<(SpecSort, &[u8]), ReadFault>
    ensures { Gives (λ x. (x.0, x.1.now)) result (spec.word_at bytes.now) }
{
    if let Some(rest) = behind("int", bytes) {
        return Ok((SpecSort::Int, rest));
    }
    if let Some(rest) = behind("bool", bytes) {
        return Ok((SpecSort::Bool, rest));
    }
    if let Some(rest) = behind("str", bytes) {
        return Ok((SpecSort::Str, rest));
    }
    if let Some(rest) = behind("sym", bytes) {
        return Ok((SpecSort::Sym, rest));
    }
    let rest = expect("list", bytes)?;
    Ok((SpecSort::List, rest))
}
