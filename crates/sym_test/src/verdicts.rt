//! What a test answers.
use gil_values::{Place, Value, Values};
use pure_terms::Query;

/// What a test answers. Contracts see it as its pure data, by `verdict_view`.
#[derive(Debug, Drop)]
pub enum Verdict {
    /// With these inputs, one for each draw, the run fails at the place with the value.
    Bug {
        place: Place,
        value: Value,
        inputs: Values,
    },
    /// No inputs make a run within the bound fail.
    Clean,
    /// On a path the engine met a list of atoms that isn't in the fragment.
    Unknown(Query),
}
