//! The limits of a build. They are our own choice.

/// The greatest number of packages of a workspace.
pub const MAX_PACKAGES: usize = 256;

/// The greatest number of units of a plan.
pub const MAX_UNITS: usize = 4096;

/// The greatest length of a manifest, in bytes.
pub const MAX_MANIFEST_BYTES: usize = 1_048_576;

/// The greatest length of a child's stream, and of dep-info, in bytes.
pub const MAX_STREAM_BYTES: usize = 4_194_304;
