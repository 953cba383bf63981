//! The operators between operands.
ghost use Rattle.std.specs.Prelude.{◌≡◌};
ghost use Rattle.value_text.specs.Reading.{Gives};
ghost use Rattle.expression_text.specs.Reading as spec;

use gil_values::BinOp;
use value_text::{ReadFault, behind, expect};

/// The operator at the front, with the blanks around it.
pub(crate) fn operator_at(bytes: &[u8]) -> Result<(BinOp, &[u8]), ReadFault>
    ensures { Gives (λ x. (x.0, x.1.now)) result (spec.operator_at bytes.now) }
{
    if let Some(rest) = behind(" + ", bytes) {
        return Ok((BinOp::Add, rest));
    }
    if let Some(rest) = behind(" - ", bytes) {
        return Ok((BinOp::Subtract, rest));
    }
    if let Some(rest) = behind(" = ", bytes) {
        return Ok((BinOp::Equal, rest));
    }
    if let Some(rest) = behind(" < ", bytes) {
        return Ok((BinOp::Less, rest));
    }
    if let Some(rest) = behind(" <= ", bytes) {
        return Ok((BinOp::LessOrEqual, rest));
    }
    rarer_operator_at(bytes)
}

/// The operator at the front, with the blanks around it, if it is one of the others.
fn rarer_operator_at(bytes: &[u8]) -> Result<(BinOp, &[u8]), ReadFault>
    ensures { Gives (λ x. (x.0, x.1.now)) result (spec.rarer_operator_at bytes.now) }
{
    if let Some(rest) = behind(" and ", bytes) {
        return Ok((BinOp::And, rest));
    }
    if let Some(rest) = behind(" or ", bytes) {
        return Ok((BinOp::Or, rest));
    }
    if let Some(rest) = behind(" ++ ", bytes) {
        return Ok((BinOp::Append, rest));
    }
    if let Some(rest) = behind(" * ", bytes) {
        return Ok((BinOp::Multiply, rest));
    }
    if let Some(rest) = behind(" / ", bytes) {
        return Ok((BinOp::Divide, rest));
    }
    let rest = expect(" % ", bytes)?;
    Ok((BinOp::Remainder, rest))
}
