//! The grammar of GIL texts: which lexemes spell which program.
#![tactic(auto)]

mod laws;
mod positions;

pub use laws::{
    expressions_end_where_they_end, one_text_has_one_reading, one_text_spells_one_program,
    texts_spell_well_made_programs,
};
pub use positions::{Extent, Naming, Opening, Position};
