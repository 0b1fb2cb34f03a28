//! Plans and refusals as text.

use pb_data::Text;
use pb_tests_files::Shown;
use pb_unit::{Plan, PlanFault, Planned};

/// Puts indices with commas between them.
fn put_indices(out: &mut Shown, indices: &[usize]) {
    let mut before = "";
    for index in indices {
        out.put(&[before]);
        out.put_number(*index as u64);
        before = ",";
    }
}

/// Puts texts with spaces between them.
pub fn put_texts(out: &mut Shown, texts: &[Text]) {
    let mut before = "";
    for text in texts {
        out.put(&[before, text.as_str()]);
        before = " ";
    }
}

/// Puts a unit with its key and level. If `whole` is true, also puts the indices of the units that
/// it needs and reaches.
fn put_unit(out: &mut Shown, plan: &Plan, index: usize, planned: &Planned, whole: bool) {
    out.put(&[planned.key.as_str(), " "]);
    out.put_number(plan.level(index) as u64);
    if whole {
        out.put(&[" "]);
        put_indices(out, plan.needs(index));
        out.put(&["/"]);
        put_indices(out, plan.reaches(index));
    }
}

/// Puts a plan: the units in order, with `; ` between them.
pub fn put_plan(out: &mut Shown, plan: &Plan, whole: bool) {
    let mut before = "";
    for (index, planned) in plan.units().iter().enumerate() {
        out.put(&[before]);
        put_unit(out, plan, index, planned, whole);
        before = "; ";
    }
}

/// Puts a refusal by its name, with what it names.
pub fn put_fault(out: &mut Shown, fault: &PlanFault) {
    match fault {
        PlanFault::Cycle(names) => {
            out.put(&["Cycle "]);
            put_texts(out, names.as_slice());
        }
        PlanFault::Profile(fault) => out.put_value(fault),
        PlanFault::TooManyUnits => out.put(&["TooManyUnits"]),
        PlanFault::NothingToBuild => out.put(&["NothingToBuild"]),
        PlanFault::OutOfMemory => out.put(&["OutOfMemory"]),
    }
}
