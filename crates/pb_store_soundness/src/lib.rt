//! Sound folders of records: only definitions and laws. The definitions state what a record
//! promises, when a record is what its unit would answer, and which changes keep a profile folder
//! sound.
#![tactic(auto)]

mod laws;

pub use laws::{
    numbers_stay_ahead, others_stay_apart, records_are_reused, records_have_a_reading,
    soundness_stays,
};
