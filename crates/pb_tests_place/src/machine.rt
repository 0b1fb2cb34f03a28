//! Tests of the machine that the programs run on: a place of real files, variables and children.
//! Each test works in a folder of its own in the system's folder for temporary files, and removes
//! it.

mod broken;
mod calls;
mod children;
mod commands;
mod failing;
mod files;
mod flying;
mod folders;
mod links;
mod meaning;
mod moving;
mod reports;
