//! A whole build: its plan, what is prepared before units run, the run of the units, and the finish
//! line.

ghost use Rattle.std.specs.Prelude.{◌≡◌, ◌⊎◌, ◌+◌, [], max, IsTrue, IfOk, IfErr, MatchResult, OnErr};
ghost use Rattle.pb_build.specs.Causes.{MayPlan, MayReady, NamesCall, PlansInTurn, ReadiesInTurn, StopsBefore, plan_called, OnlyLooks, OnlyAsks};
ghost use Rattle.pb_build.specs.Ending.{FailsBefore, EndsWith, IsPlanOf, PlansFrom, Prepares, Works, Closes, Builds, BuildsBy, BuildsFirst};
ghost use Rattle.pb_build.specs.Environment.{environment_of};
ghost use Rattle.pb_build.specs.Headline.{ByTurns, ByPick, ByFirst, Headline};
ghost use Rattle.pb_build.specs.Kept.{SourcesStay};
ghost use Rattle.pb_build.specs.Planning.{IsToldRefusal};
ghost use Rattle.pb_build.specs.AnyPlan.{BuildsOn, BuildsOnFirst, IsReadyFor, IsSilentFault, Readies, WorksOn};
ghost use Rattle.pb_build.specs.Private.{IsUnrefused, fault_of_opening};
ghost use Rattle.pb_build.specs.Result.{setup_of};
ghost use Rattle.pb_message.specs.Message.{finish_line};
ghost use Rattle.pb_run.specs.Steps.{MakesInTurn};
ghost use Rattle.pb_run.specs.Invariants.{records_folder};
ghost use Rattle.pb_store_soundness.specs.Records.{records};
ghost use Rattle.pb_store.specs.Folder.{HasNumbers, OpensStore};
ghost use Rattle.pb_store.specs.Looking.{opened_looked};
ghost use Rattle.pb_place_types.specs.Sinks.{SinkState};
ghost use Rattle.pb_build_turns.specs.Executor.{BuildState, moment};

use crate::environment::{Environment, environment_of};
use crate::planning::plan_project;
use crate::toolchain::ask;
use pb_build_result::{BuildFault, Summary};
use pb_build_turns::run_turns;
use pb_command_types::Setup;
use pb_data::{Bytes, Text, TryCopy};
use pb_message::{finish_line, write_lines};
use pb_place_types::{Out, PathText, Place, RelativePath};
use pb_profile::folder_of;
use pb_run::{OrderedProject, device_fault};
use pb_run_flight::{First, Jobs, Pick, Turn};
use pb_store::{OpenFault, Store};
use pb_workspace_types::Options;
use std::alloc::{AllocError, Global};

/// What must be known before the units of a build are run.
#[derive(Drop)]
pub struct Prepared {
    /// How the units are compiled.
    pub setup: Setup,
    /// What is built.
    pub project: OrderedProject,
    /// The records of the profile's folder.
    pub store: Store,
}

/// Returns how the units are compiled.
fn setup_of(
    alloc: Global,
    options: &Options,
    environment: Environment,
    toolchain: Bytes,
) -> Result<Setup, AllocError>
    ensures { IfOk result (λ setup. setup ≡ setup_of options.now environment toolchain) }
{
    let tool = options.tool.copy(alloc)?;
    let runner = options.runner.copy(alloc)?;
    Ok(Setup {
        tool,
        rustc: environment.rustc,
        flags: environment.flags,
        runner,
        toolchain,
    })
}

/// Returns the folder of a project's records: the profile's folder, in the target folder.
fn records_folder(alloc: Global, project: &OrderedProject) -> Result<PathText, AllocError>
    ensures { IfOk result (λ folder. folder ≡ records_folder project.now) }
{
    project.is_in_order();
    let project = project.get();
    let name = Text::from_str(alloc, folder_of(project.profile.as_str()))?;
    match RelativePath::of(name) {
        Some(name) => {
            let folder = project.workspace.target.below(alloc, &name)?;
            Ok(folder)
        }
        None => unreachable!(),
    }
}

/// Returns the fault of a store that cannot be opened: `Device`, with the path of the failed call.
fn open_error(fault: OpenFault) -> BuildFault
    ensures { result ≡ fault_of_opening fault }
{
    match fault {
        OpenFault::Place(path, fault) => device_fault(path.into_text(), fault),
        OpenFault::OutOfMemory => BuildFault::OutOfMemory,
    }
}

/// Opens the store of a project's records.
fn open_store<P: Place>(
    alloc: Global,
    place: &mut P,
    project: &OrderedProject,
) -> Result<Store, BuildFault>
    ensures folder { IfOk result (λ store. store.folder ≡ records_folder project.now) }
    ensures opens { IsTrue P.is_modelled → IfOk result
        (OpensStore (records_folder project.now) (P.at place.old).world) }
    ensures quiet { OnlyLooks MayPlan result (P.at place.old) (P.at place.new) }
    ensures unrefused { IfErr result IsUnrefused }
    ensures calls { IsTrue P.is_modelled
        → MakesInTurn result (opened_looked (records_folder project.now) (P.at place.old).world)
        (P.at place.old).counts (P.at place.new).counts }
{
    let folder = match records_folder(alloc, project) {
        Ok(folder) => folder,
        Err(_) => return Err(BuildFault::OutOfMemory),
    };
    match Store::open(alloc, place, folder) {
        Ok(store) => Ok(store),
        Err(fault) => Err(open_error(fault)),
    }
}

/// Queries the compiler's version, and opens the records of a project.
fn ready<P: Place>(
    alloc: Global,
    place: &mut P,
    options: &Options,
    environment: Environment,
    project: OrderedProject,
) -> Result<Prepared, BuildFault>
    ensures folder { IfOk result
        (λ prepared. prepared.store.folder ≡ records_folder prepared.project) }
    ensures numbers { IsTrue P.is_modelled → IfOk result (λ prepared.
        HasNumbers (records (records_folder prepared.project) (P.at place.new).world)
        prepared.store.numbers) }
    ensures ready { IsTrue P.is_modelled
        → IfOk result (IsReadyFor P.child options.now environment project (P.at place.old).world) }
    ensures project { IfOk result (λ prepared. prepared.project ≡ project) }
    ensures silent { IsTrue P.is_modelled
        → IfErr result (IsSilentFault P.child environment project (P.at place.old).world) }
    ensures asks { OnlyAsks MayReady result (P.at place.old) (P.at place.new) }
    ensures names { NamesCall result (P.at place.new).counts }
    ensures calls { IsTrue P.is_modelled
        → ReadiesInTurn result (opened_looked (records_folder project) (P.at place.old).world)
        (P.at place.old).counts (P.at place.new).counts }
{
    let toolchain = match ask(alloc, place, &environment, project.get()) {
        Ok(toolchain) => toolchain,
        Err(fault) => {
            drop((environment, project));
            return Err(fault);
        }
    };
    let setup = match setup_of(alloc, options, environment, toolchain) {
        Ok(setup) => setup,
        Err(_) => {
            drop(project);
            return Err(BuildFault::OutOfMemory);
        }
    };
    match open_store(alloc, place, &project) {
        Ok(store) => Ok(Prepared {
            setup,
            project,
            store,
        }),
        Err(fault) => {
            drop((setup, project));
            Err(fault)
        }
    }
}

/// A planned build. Nothing has been started or changed yet.
#[derive(Drop)]
pub struct BuildPlan {
    /// What the variables and the options say about the build.
    pub environment: Environment,
    /// What is built.
    pub project: OrderedProject,
}

/// Plans a build. The variables `RUSTC`, `RUSTFLAGS` and `CARGO_TARGET_DIR` are read first, and
/// then the workspace. The selected packages, their features and the plan are found next, in this
/// order. No child is started, no line is written, and no file is changed.
///
/// Errors:
///
/// - `Plan`, with the first refusal.
/// - `Device`, with the variable's name or the path of the failed call.
/// - `OutOfMemory`.
pub fn plan_build<P: Place>(
    alloc: Global,
    place: &mut P,
    options: &Options,
) -> Result<BuildPlan, BuildFault>
    ensures plan { IsTrue P.is_modelled →
        IfOk result (IsPlanOf options.now (P.at place.old).world) }
    ensures quiet { OnlyLooks MayPlan result (P.at place.old) (P.at place.new) }
    ensures unstarted { (P.at place.new).counts.starts ≡ (P.at place.old).counts.starts }
    ensures refused { IsTrue P.is_modelled
        → IfErr result
        (IsToldRefusal options.now
        (environment_of options.now (P.at place.old).world.variables).target
        (P.at place.old).world) }
    ensures calls { IsTrue P.is_modelled
        → PlansInTurn result (plan_called options.now (P.at place.old).world)
        (P.at place.old).counts (P.at place.new).counts }
{
    let environment = match environment_of(alloc, place, options) {
        Ok(environment) => environment,
        Err(fault) => return Err(fault),
    };
    match plan_project(alloc, place, options, &environment.target) {
        Ok(project) => Ok(BuildPlan {
            environment,
            project,
        }),
        Err(fault) => Err(fault),
    }
}

/// Queries the compiler's version, and opens the records of the profile's folder. If the plan
/// failed, returns the fault of the plan. No file is changed, and no line is written.
///
/// Errors:
///
/// - The plan's fault.
/// - `Child` with `-vV`, if the compiler does not answer.
/// - `Toolchain`, if the compiler does not report its host.
/// - `Device`, with the path of the failed call.
/// - `OutOfMemory`.
pub fn prepare<P: Place>(
    alloc: Global,
    place: &mut P,
    options: &Options,
    plan: Result<BuildPlan, BuildFault>,
) -> Result<Prepared, BuildFault>
    requires none { (P.at place.old).counts.starts.flying ≡ [] }
    ensures folder { IfOk result
        (λ prepared. prepared.store.folder ≡ records_folder prepared.project) }
    ensures numbers { IsTrue P.is_modelled → IfOk result (λ prepared.
        HasNumbers (records (records_folder prepared.project) (P.at place.new).world)
        prepared.store.numbers) }
    ensures readies { (heard : SinkState)
        → Readies P.is_modelled P.child options.now plan result (moment (P.at place.old) heard)
        (moment (P.at place.new) heard) }
    ensures prepares { IfOk result
        (λ prepared.
        (from : BuildState)
        → PlansFrom P.is_modelled options.now plan from (moment (P.at place.old) from.heard)
        → Prepares P.is_modelled P.child options.now prepared from.world
        (P.at place.new).world from.counts (P.at place.new).counts from.most
        (P.at place.new).most) }
    ensures fails { IfErr result
        (λ e.
        (from : BuildState)
        → PlansFrom P.is_modelled options.now plan from (moment (P.at place.old) from.heard)
        → FailsBefore P.is_modelled P.child options.now e from.world from.counts
        (P.at place.new).counts) }
    ensures stops { IsTrue P.is_modelled
        → IfErr result
        (λ e.
        (from : BuildState)
        → PlansFrom P.is_modelled options.now plan from
        (moment (P.at place.old) from.heard)
        → StopsBefore options.now from.world e from.counts (P.at place.new).counts) }
    ensures same { (P.at place.new).world ≡ (P.at place.old).world }
    ensures most { OnErr result
        (((P.at place.new).most ≡ (P.at place.old).most)
        ⊎ ((P.at place.new).most ≡ max (P.at place.old).most 1)) }
    ensures landed { (P.at place.new).counts.starts.flying ≡ [] }
{
    let plan = match plan {
        Ok(plan) => plan,
        Err(fault) => return Err(fault),
    };
    match ready(alloc, place, options, plan.environment, plan.project) {
        Ok(prepared) => {
            prepared.project.is_in_order();
            Ok(prepared)
        }
        Err(fault) => Err(fault),
    }
}

/// Runs a planned build, but does not write its finish line. Suppose that no call of the place came
/// between the planning and this call. Then the contract describes all changes since the planning
/// began.
fn work<P: Place, O: Out, T: Turn>(
    alloc: Global,
    place: &mut P,
    out: &mut O,
    options: &Options,
    plan: Result<BuildPlan, BuildFault>,
    turn: &mut T,
) -> Result<Summary, BuildFault>
    requires none { (P.at place.old).counts.starts.flying ≡ [] }
    ensures on { WorksOn P.is_modelled P.child T.turns options.now plan turn.old turn.new result
        (moment (P.at place.old) (O.heard out.old)) (moment (P.at place.new) (O.heard out.new)) }
    ensures works { (from : BuildState)
        → PlansFrom P.is_modelled options.now plan from (moment (P.at place.old) (O.heard out.old))
        → Works P.is_modelled P.child T.turns options.now turn.old turn.new result from
        (moment (P.at place.new) (O.heard out.new)) }
{
    let prepared = match prepare(alloc, place, options, plan) {
        Ok(prepared) => prepared,
        Err(fault) => return Err(fault),
    };
    let Prepared {
        setup,
        project,
        store,
    } = prepared;
    run_turns(alloc, place, out, setup, project, store, turn)
}

/// Writes a finish line and returns the build's answer, or `Sink` if the sink fails.
#[tactic(auto, using(crate::proofs::Closing::finishing_laws))]
fn finish<O: Out>(
    out: &mut O,
    success: bool,
    inner: Result<Summary, BuildFault>,
) -> Result<Summary, BuildFault>
    ensures { EndsWith (finish_line success) inner result (O.heard out.old) (O.heard out.new) }
{
    match write_lines(out, finish_line(success)) {
        Ok(()) => inner,
        Err(_) => {
            drop(inner);
            Err(BuildFault::Sink)
        }
    }
}

/// Writes the finish line, unless the build is refused or the sink has failed.
fn close<O: Out>(out: &mut O, inner: Result<Summary, BuildFault>) -> Result<Summary, BuildFault>
    ensures { Closes inner result (O.heard out.old) (O.heard out.new) }
{
    match inner {
        Ok(summary) => finish(out, summary.success, Ok(summary)),
        // After the sink has failed, nothing is written to it.
        Err(BuildFault::Sink) => Err(BuildFault::Sink),
        Err(BuildFault::Plan(refusal)) => Err(BuildFault::Plan(refusal)),
        Err(fault) => finish(out, false, Err(fault)),
    }
}

/// Builds what was planned, as `build_turns` does after its plan. A turn chooses the steps. If the
/// plan failed, the build ends as `build_turns` ends after a failed plan.
///
/// Suppose that no call of the place came between the planning and this call, and that nothing was
/// written. Then the build ends as `build_turns` promises (`builds`), seen from the moment before
/// the planning.
///
/// The plan may be older, or may have been made with options that differ from `options`. Even then
/// this call takes the project, the environment and the folder of records from the plan. All else
/// is as `options` say.
pub fn build_plan_turns<P: Place, O: Out, T: Turn>(
    alloc: Global,
    place: &mut P,
    out: &mut O,
    options: &Options,
    plan: Result<BuildPlan, BuildFault>,
    turn: &mut T,
) -> Result<Summary, BuildFault>
    requires none { (P.at place.old).counts.starts.flying ≡ [] }
    ensures on { BuildsOn P.is_modelled P.child T.turns options.now plan turn.old turn.new result
        (moment (P.at place.old) (O.heard out.old)) (moment (P.at place.new) (O.heard out.new)) }
    ensures kept { IsTrue P.is_modelled
        → MatchResult plan
        (λ p.
        SourcesStay p.project.workspace.target (P.at place.old).world
        (P.at place.new).world)
        (λ e. (P.at place.new).world ≡ (P.at place.old).world) }
    ensures landed { (P.at place.new).counts.starts.flying ≡ [] }
    ensures builds { (from : BuildState)
        → PlansFrom P.is_modelled options.now plan from (moment (P.at place.old) (O.heard out.old))
        → Builds P.is_modelled P.child T.turns options.now turn.old turn.new result from
        (moment (P.at place.new) (O.heard out.new)) }
{
    let inner = work(alloc, place, out, options, plan, turn);
    close(out, inner)
}

/// Builds what was planned, and begins the units in plan order, as `build` does after its plan.
pub fn build_plan<P: Place, O: Out>(
    alloc: Global,
    place: &mut P,
    out: &mut O,
    options: &Options,
    plan: Result<BuildPlan, BuildFault>,
) -> Result<Summary, BuildFault>
    requires none { (P.at place.old).counts.starts.flying ≡ [] }
    ensures on { BuildsOnFirst P.is_modelled P.child options.now plan result
        (moment (P.at place.old) (O.heard out.old)) (moment (P.at place.new) (O.heard out.new)) }
    ensures kept { IsTrue P.is_modelled
        → MatchResult plan
        (λ p.
        SourcesStay p.project.workspace.target (P.at place.old).world
        (P.at place.new).world)
        (λ e. (P.at place.new).world ≡ (P.at place.old).world) }
    ensures landed { (P.at place.new).counts.starts.flying ≡ [] }
    ensures builds { (from : BuildState)
        → PlansFrom P.is_modelled options.now plan from (moment (P.at place.old) (O.heard out.old))
        → BuildsFirst P.is_modelled P.child options.now result from
        (moment (P.at place.new) (O.heard out.new)) }
{
    let mut jobs = Jobs {
        pick: First {},
        jobs: options.jobs,
    };
    build_plan_turns(alloc, place, out, options, plan, &mut jobs)
}

/// Builds the workspace of a root manifest, as `cargo build` does. A turn chooses the steps.
///
/// The order is fixed. The build is planned first, as by `plan_build`. Then the query `-vV` is
/// made, and the records of the profile's folder are opened. The units of the plan are run next,
/// and the finish line is written last.
///
/// The turn chooses which unit begins or answers next. The turns end when all units have answered,
/// or when all units up to and including the first bad unit have answered. A unit's child is
/// started only if something differs from the unit's record. Message lines are written in plan
/// order, as units answer. At the end, or after a fault, the build waits for the children in
/// flight, in the order in which they began. The children's answers are dropped.
///
/// Errors:
///
/// - `Plan`, before a child is started, a line is written or a file is changed.
/// - `Toolchain`, if the compiler does not report its host.
/// - `Child`, if a child does not answer.
/// - `Device`, if a call on files or variables fails, or if no run number is left.
/// - `Sink`, if the sink fails.
/// - `OutOfMemory`.
///
/// After a failed call no further call is made, except to wait for children in flight. After any
/// error except `Plan` and `Sink`, the finish line of a failed build is written. A bad unit is not
/// an error: the summary names the unit.
///
/// However the build ends, the files outside the target folder and the variables do not change.
/// Afterwards no child is in flight.
pub fn build_turns<P: Place, O: Out, T: Turn>(
    alloc: Global,
    place: &mut P,
    out: &mut O,
    options: &Options,
    turn: &mut T,
) -> Result<Summary, BuildFault>
    requires none { (P.at place.old).counts.starts.flying ≡ [] }
    ensures builds { Builds P.is_modelled P.child T.turns options.now turn.old turn.new result
        (moment (P.at place.old) (O.heard out.old)) (moment (P.at place.new) (O.heard out.new)) }
    ensures headline { Headline P.is_modelled P.child (ByTurns T.turns turn.old) options.now result
        (moment (P.at place.old) (O.heard out.old)) (moment (P.at place.new) (O.heard out.new)) }
    ensures kept { IsTrue P.is_modelled
        → SourcesStay (environment_of options.now (P.at place.old).world.variables).target
        (P.at place.old).world (P.at place.new).world }
    ensures landed { (P.at place.new).counts.starts.flying ≡ [] }
{
    let plan = plan_build(alloc, place, options);
    build_plan_turns(alloc, place, out, options, plan, turn)
}

/// Builds with as many units in flight as the options allow. If another unit may be in flight, and
/// some unit may begin, the pick chooses the unit that begins. Otherwise the unit that has been in
/// flight longest answers. The pick is borrowed, since each choice may change its state.
///
/// Errors: those of `build_turns`.
pub fn build_with<P: Place, O: Out, K: Pick>(
    alloc: Global,
    place: &mut P,
    out: &mut O,
    options: &Options,
    pick: &mut K,
) -> Result<Summary, BuildFault>
    requires none { (P.at place.old).counts.starts.flying ≡ [] }
    ensures builds { BuildsBy P.is_modelled P.child K.picks options.now pick.old pick.new result
        (moment (P.at place.old) (O.heard out.old)) (moment (P.at place.new) (O.heard out.new)) }
    ensures headline { Headline P.is_modelled P.child
        (ByPick K.picks options.now pick.old) options.now
        result (moment (P.at place.old) (O.heard out.old))
        (moment (P.at place.new) (O.heard out.new)) }
    ensures kept { IsTrue P.is_modelled
        → SourcesStay (environment_of options.now (P.at place.old).world.variables).target
        (P.at place.old).world (P.at place.new).world }
    ensures landed { (P.at place.new).counts.starts.flying ≡ [] }
{
    let mut jobs = Jobs {
        pick,
        jobs: options.jobs,
    };
    build_turns(alloc, place, out, options, &mut jobs)
}

/// Builds, and begins the units in plan order.
///
/// Errors: those of `build_turns`.
pub fn build<P: Place, O: Out>(
    alloc: Global,
    place: &mut P,
    out: &mut O,
    options: &Options,
) -> Result<Summary, BuildFault>
    requires none { (P.at place.old).counts.starts.flying ≡ [] }
    ensures builds { BuildsFirst P.is_modelled P.child options.now result
        (moment (P.at place.old) (O.heard out.old)) (moment (P.at place.new) (O.heard out.new)) }
    ensures headline { Headline P.is_modelled P.child (ByFirst options.now) options.now result
        (moment (P.at place.old) (O.heard out.old)) (moment (P.at place.new) (O.heard out.new)) }
    ensures kept { IsTrue P.is_modelled
        → SourcesStay (environment_of options.now (P.at place.old).world.variables).target
        (P.at place.old).world (P.at place.new).world }
    ensures landed { (P.at place.new).counts.starts.flying ≡ [] }
{
    let mut first = First {};
    build_with(alloc, place, out, options, &mut first)
}
