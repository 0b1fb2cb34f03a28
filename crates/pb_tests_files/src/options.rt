//! The options of a build.

use pb_data::{Items, Text};
use pb_place_types::{PathFault, PathText};
use pb_workspace_types::Options;
use std::alloc::Global;

/// Returns the options of a build of the workspace in `/w` that requests nothing.
pub fn no_options(alloc: Global) -> Result<Options, PathFault> {
    let manifest = PathText::parse(alloc, "/w/Cargo.toml")?;
    let profile = Text::from_str(alloc, "dev")?;
    let tool = Text::from_str(alloc, "tool")?;
    Ok(Options {
        manifest,
        packages: Items::new(alloc),
        workspace: false,
        features: Items::new(alloc),
        all_features: false,
        no_default_features: false,
        profile,
        lib: false,
        bins: false,
        bin: Items::new(alloc),
        target_dir: None,
        runner: Items::new(alloc),
        tool,
        jobs: 1,
    })
}
