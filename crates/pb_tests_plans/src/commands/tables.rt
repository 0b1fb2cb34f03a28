//! Commands, by a table of files with questions and answers.

use crate::asking::assert_cases;
use crate::commands::asking::{ProjectCase, put_asked, setup_of};
use crate::commands::cases::CASES;
use crate::commands::making::{done_of, options_of, project_of};
use pb_command_types::Project;
use pb_place::Memory;
use pb_tests_files::{Answers, Case, Shown, Silent, Trial, put_answers, put_files};
use pb_unit::Planned;
use std::alloc::Global;
use std::test::Fail;

/// Returns the unit of a key.
fn unit_of<'a>(units: &'a [Planned], key: &str) -> Option<&'a Planned> {
    units.iter().find(|unit| unit.key.as_str() == key)
}

impl Answers for ProjectCase<'_> {
    /// Writes the answer to a question `KEY WHAT`.
    fn put_answer(&self, alloc: Global, question: &str, out: &mut Shown) -> Result<(), Fail> {
        let (key, what) = question.split_once(" ").unwrap_or((question, ""));
        match unit_of(self.project.plan.units(), key) {
            Some(unit) => put_asked(alloc, self, unit, what, out),
            None => Err(Fail::from("no unit")),
        }
    }
}

/// Puts the answers to the questions of a case about its project.
fn put_answers_of(
    alloc: Global,
    memory: &Memory<Silent>,
    project: &Project,
    case: &Case<'_>,
    out: &mut Shown,
) -> Result<(), Fail> {
    let done = done_of(alloc, memory, project)?;
    let setup = setup_of(alloc, case.name)?;
    let answers = ProjectCase {
        setup: &setup,
        project,
        done: done.as_slice(),
        memory,
    };
    let put = put_answers(alloc, &answers, case.wanted, out);
    drop(setup);
    drop(done);
    put
}

/// Puts the files of a case in a place, and returns its project, or none if the project is refused.
fn project_in(
    alloc: Global,
    memory: &mut Memory<Silent>,
    head: &str,
    files: &str,
) -> Result<Option<Project>, Fail> {
    put_files(alloc, memory, files)?;
    let options = options_of(alloc, head)?;
    let project = project_of(alloc, memory, &options);
    drop(options);
    project
}

/// Puts the answers to the questions of a case at a place.
fn put_answers_at(
    alloc: Global,
    memory: &mut Memory<Silent>,
    case: &Case<'_>,
    out: &mut Shown,
) -> Result<(), Fail> {
    match project_in(alloc, memory, case.name, case.given)? {
        Some(project) => {
            let put = put_answers_of(alloc, memory, &project, case, out);
            drop(project);
            put
        }
        None => Err(Fail::from("no project")),
    }
}

/// Cases of files, with words of options in their names and questions about their commands.
struct CommandCases {}

impl Trial for CommandCases {
    fn put_result(&self, alloc: Global, case: &Case<'_>, out: &mut Shown) -> Result<(), Fail> {
        let mut memory = Memory::new(alloc, Silent);
        let put = put_answers_at(alloc, &mut memory, case, out);
        drop(memory);
        put
    }
}

/// Rules: `commands.compile`.
#[test]
fn commands(rt: HostRuntime) -> Result<(), Fail> {
    assert_cases(&rt, rt.alloc(), CASES, &CommandCases {}, 16)?;
    Ok(())
}
