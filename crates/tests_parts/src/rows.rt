//! A row that isn't decided, with memory to spare.
use linear_core::{Coefficient, Coefficients, Linear, Relation, Row, Rows, are_over, linear};
use pure_terms::{Sort, VarTable};
use std::alloc::{AllocError, Global};
use std::test::Fail;

/// The sum of the variables 0 and 1 is at most 0.
fn sum(alloc: Global) -> Result<Row, AllocError> {
    let mut coefficients = Coefficients::new(alloc);
    for variable in [0, 1] {
        let factor = 1;
        coefficients.push(Coefficient { variable, factor })?;
    }
    Ok(Row {
        coefficients,
        constant: 0,
        relation: Relation::AtMostZero,
    })
}

#[test]
fn a_sum_is_beyond(rt: HostRuntime) -> Result<(), Fail> {
    let alloc = rt.alloc();
    let mut vars = VarTable::new(alloc);
    vars.push(Sort::Int)?;
    vars.push(Sort::Int)?;
    let mut rows = Rows::new(alloc);
    rows.push(sum(alloc)?)?;
    assert!(rt; are_over(&vars, &rows));
    assert!(rt; matches!(linear(alloc, &vars, &rows)?, Linear::Beyond(0)));
    Ok(())
}
