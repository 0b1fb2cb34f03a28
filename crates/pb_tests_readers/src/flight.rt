//! Tests of the flight table: worked steps on a plan with scripts, and random steps on random
//! plans. The random steps are compared with a plain version of the table. The crate contains
//! nothing else.

mod plain;
mod random;
mod steps;
mod turns;
