//! A project that is in order.

use pb_command_types::Project;
use pb_data::Text;
use pb_unit::Planned;
use std::marker::Model;

/// A project that is in order. The project's workspace is settled, and the plan is a plan of this
/// workspace. Units with different keys have separate folders. Contracts see the project.
#[derive(Drop)]
pub struct OrderedProject {
    inside: Project,
}

impl Model for OrderedProject {
    ghost use Rattle.pb_command_types.specs.declared.project.Project.{Project};
    ghost use Rattle.pb_run.specs.Invariants.{IsInOrder};

    ghost Value = { Project };

    ghost view = { λ a. a.inside };

    ghost invariant = { λ a. IsInOrder a.inside };
}

impl OrderedProject {
    ghost use Rattle.std.specs.Prelude.{◌≡◌};
    ghost use Rattle.pb_run.specs.Invariants.{IsInOrder};

    /// Returns the project as a project that is in order.
    pub fn new(project: Project) -> OrderedProject
        requires { IsInOrder project }
        ensures { result ≡ project }
    {
        OrderedProject { inside: project }
    }

    /// Returns the project.
    pub fn get(&self) -> &Project
        ensures { result.now ≡ self.now }
    {
        &self.inside
    }

    /// Returns the project by value.
    pub fn into_project(self) -> Project
        ensures { result ≡ self }
    {
        self.inside
    }

    /// Returns the units of the project's plan, in plan order.
    pub fn units(&self) -> &[Planned]
        ensures { result.now ≡ self.now.plan.planned }
    {
        self.inside.plan.planned.as_slice()
    }

    /// Returns the names of the packages that have no library although enabled dependencies of the
    /// plan lead to them.
    pub fn without_library(&self) -> &[Text]
        ensures { result.now ≡ self.now.plan.without_library }
    {
        self.inside.plan.without_library()
    }

    /// A law: the project is in order. The function does nothing.
    pub fn is_in_order(&self)
        ensures { IsInOrder self.now }
    {
        let _ = &self.inside;
    }
}
