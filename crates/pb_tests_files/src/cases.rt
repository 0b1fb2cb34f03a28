//! Tables of cases, each in a raw string.

use crate::shown::Shown;
use std::alloc::Global;
use std::test::Fail;

/// A case of a table: a line `=== NAME`, what is given, a line `---`, and what is wanted.
#[derive(Clone, Copy)]
pub struct Case<'a> {
    /// Its name, with its rules in brackets.
    pub name: &'a str,
    /// What is given.
    pub given: &'a str,
    /// What is wanted.
    pub wanted: &'a str,
}

/// What tries the cases of a table.
pub trait Trial {
    /// Writes what a case results in, in the form in which the table has it.
    fn put_result(&self, alloc: Global, case: &Case<'_>, out: &mut Shown) -> Result<(), Fail>;
}

/// What answers the questions of a case.
pub trait Answers {
    /// Writes the answer to a question.
    fn put_answer(&self, alloc: Global, question: &str, out: &mut Shown) -> Result<(), Fail>;
}

/// Returns the case of a text, if the text has the three parts of a case.
fn case_of(text: &str) -> Option<Case<'_>> {
    let (name, rest) = text.split_once('\n')?;
    let (given, wanted) = rest.split_once("---\n")?;
    Some(Case {
        name,
        given,
        wanted,
    })
}

/// The result of trying a table.
#[derive(Drop)]
pub struct Tried {
    /// How many cases the table has.
    pub count: usize,
    /// What is wrong. For each case that is wrong: its name, what is wanted and what came.
    pub wrong: Shown,
}

/// Tries a case, and notes it if it does not result in what is wanted.
fn try_case<T: Trial>(
    alloc: Global,
    case: &Case<'_>,
    trial: &T,
    wrong: &mut Shown,
) -> Result<(), Fail> {
    let mut came = Shown::new(alloc);
    trial.put_result(alloc, case, &mut came)?;
    if !came.says(case.wanted) {
        let came = came.as_str();
        wrong.put(&[case.name, ": wanted\n", case.wanted, "came\n", came]);
    }
    Ok(())
}

/// Tries each case of a table. A text without the three parts of a case is wrong, too.
///
/// Errors: the errors of the trial.
pub fn try_cases<T: Trial>(alloc: Global, table: &str, trial: &T) -> Result<Tried, Fail> {
    let mut tried = Tried {
        count: 0,
        wrong: Shown::new(alloc),
    };
    for text in table.split("=== ") {
        if text.is_empty() {
            continue;
        }
        let Some(case) = case_of(text) else {
            tried.wrong.put(&["no case: ", text]);
            continue;
        };
        try_case(alloc, &case, trial, &mut tried.wrong)?;
        tried.count = tried.count.saturating_add(1);
    }
    Ok(tried)
}

/// Writes a line `QUESTION = ANSWER` for each line of the wanted text, with the line's question and
/// the actual answer.
pub fn put_answers<A: Answers>(
    alloc: Global,
    answers: &A,
    wanted: &str,
    out: &mut Shown,
) -> Result<(), Fail> {
    for line in wanted.lines() {
        let (question, _) = line.split_once(" = ").unwrap_or((line, ""));
        let mut answer = Shown::new(alloc);
        answers.put_answer(alloc, question, &mut answer)?;
        let answer = answer.whole()?;
        out.put(&[question, " = ", answer.as_str(), "\n"]);
    }
    Ok(())
}
