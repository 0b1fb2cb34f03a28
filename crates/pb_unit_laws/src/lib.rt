//! Laws of plans: which features are on, which fault a feature has, what a unit needs and produces,
//! and what a profile inherits and sets (The Cargo Book, Features, Specifying Dependencies, Build
//! Scripts, Cargo Targets, Profiles).
#![tactic(auto)]

ghost use Rattle.pb_unit_laws.specs.Features.{FeaturesAreOne};
ghost use Rattle.pb_unit_laws.specs.Items.{PackagesAreAtFault};
ghost use Rattle.pb_unit_laws.specs.Kinds.{FoldersArePackages, KindsAreThese, RolesAreThese, RunsSay};
ghost use Rattle.pb_unit_laws.specs.Levels.{LevelsAreThese, PackagesHaveNames};
ghost use Rattle.pb_unit_laws.specs.Needs.{NeedsAreThese};
ghost use Rattle.pb_unit_laws.specs.Profiles.{LinesAreChecked, LinesAreThese};
ghost use Rattle.pb_unit_laws.specs.Settings.{SettingsAreThese};
ghost use Rattle.pb_unit_laws.specs.Targets.{PlansHaveTargets, RunsMakeNone, UnitsMakeTargets};

/// A law: the definition of resolved features determines all features that are on. Each question
/// about these features has one answer.
pub fn features_are_one()
    ensures { FeaturesAreOne }
{}

/// A law: a unit needs exactly what the rule for its kind says.
pub fn needs_are_these()
    ensures { NeedsAreThese }
{}

/// A law: the line of inheritance of a profile leads from each profile to the profile from which it
/// inherits, up to `dev` or `release`. A profile is at fault in two cases:
///
/// - The profile is neither `dev` nor `release`, and inherits from no profile.
/// - The profile inherits from itself in one or more steps.
///
/// A profile has no line of inheritance if and only if the profile, or a profile from which it
/// inherits, is at fault. A line of inheritance is good if the overrides of its profiles set only
/// keys that overrides may set.
pub fn lines_are_these()
    ensures lines { LinesAreThese }
    ensures checked { LinesAreChecked }
{}

/// This law says what a unit compiles and produces, for each kind of target. A run produces no
/// file. The package of each unit of a plan has the unit's target, and the package of each run has
/// its script.
pub fn units_make_targets()
    ensures targets { UnitsMakeTargets }
    ensures runs { RunsMakeNone }
    ensures plans { PlansHaveTargets }
{}

/// A law: the first wrong item of a package's features is reported, with the reason.
pub fn packages_are_at_fault()
    ensures { PackagesAreAtFault }
{}

/// This law says which kinds of units exist, which role and folder a unit has, and which directives
/// a run has.
pub fn kinds_are_these()
    ensures kinds { KindsAreThese }
    ensures roles { RolesAreThese }
    ensures folders { FoldersArePackages }
    ensures said { RunsSay }
{}

/// A law about the settings of a package in a role. A key that is fixed in this role has its fixed
/// value. Any other key has the first value that counts for the key.
pub fn settings_are_these()
    ensures { SettingsAreThese }
{}

/// This law says what `above` is for the levels of units at some indices. The law also says what
/// `name_at` and `has_library` are for the package at an index.
pub fn levels_are_these()
    ensures levels { LevelsAreThese }
    ensures packages { PackagesHaveNames }
{}
