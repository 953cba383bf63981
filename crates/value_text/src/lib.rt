//! Numbers, names, texts and values are read from the front of bytes, as they are printed, and with them the bytes that follow.
#![tactic(auto)]

mod faults;
mod laws;
mod names;
mod numbers;
mod texts;
mod values;
mod words;

pub use faults::ReadFault;
pub use laws::{only_writable, values_again};
pub use names::{begins_name, name_at, past_name};
pub use numbers::{integer_at, long_at, natural_at, small_at};
pub use texts::text_at;
pub use values::{ends_elements, value_at, values_at};
pub use words::{begins_with, behind, expect};
