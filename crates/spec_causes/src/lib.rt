//! Why specifications aren't verified, as causes of checked runs: what a cause says of the runs, which paths they reach, and the valuation
//! that is shown of a cause.
#![tactic(auto)]

mod meeting;
mod showing;

pub use meeting::Met;
pub use showing::show;
