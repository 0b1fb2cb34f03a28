//! The children of a place in memory. The fuse and the deaths decide how each child is spawned and
//! ends.

ghost use Rattle.std.specs.Prelude.{is_some, Ok, ◌≡◌, ◌≢◌, ◌⊎◌, ◌+◌, ◌-◌, ◌++◌, ◌∷◌, [], length, max, true, false, IfOk, IfErr, OnOk, OnErr, IfSome, IfNone, Some, None, Err};
ghost use Rattle.std.specs.List.{list_any};
ghost use Rattle.pb_place_types.specs.World.{seen_by, ChangesOnlyInSome};
ghost use Rattle.pb_place_types.specs.Counts.{without};
ghost use Rattle.pb_place_types.specs.Children.{child_spawned, is_flying, child_at, most_after, inside_out, landing};
ghost use Rattle.pb_place_types.specs.Copies.{put_half};
ghost use Rattle.pb_place.specs.InFlight.{children_in, other_entries};
ghost use Rattle.pb_place.specs.Tallies.{flown};
ghost use Rattle.pb_place.specs.Memory.{is_doomed, may_fail, fate_at};
ghost use Rattle.pb_place.specs.Starts.{SpawnFails, SpawnsIn, EndFails, EndsIn};

use crate::in_flight::{Flying, drop_death, fate, free_ticket, take_out};
use crate::landing::{inside_out, land, leave_half};
use crate::memory::Memory;
use crate::sight::Sight;
use pb_data::{Bytes, TryCopy, with_next};
use pb_place_types::{
    Child, ChildInFlight, Command, Ended, FileMap, PathText, RelativePath, Reply, StartFault,
};
use std::alloc::{AllocError, Global};

/// Adds a child in flight, and returns the greatest number of children that were ever in flight at
/// a time.
#[tactic(auto, using(crate::proofs::InFlight::fly_laws))]
fn add_child(
    flying: &mut Vec<Flying<Option<StartFault>>>,
    most: u64,
    one: Flying<Option<StartFault>>,
) -> Result<u64, AllocError>
    ensures items { OnOk result (flying.new.items ≡ flying.old.items ++ one ∷ []) }
    ensures children { OnOk result
        (children_in flying.new.items ≡ children_in flying.old.items ++ one.child ∷ []) }
    ensures most { IfOk result (λ m. m ≡ max most (length (children_in flying.old.items) + 1)) }
    ensures err { OnErr result (flying.new.items ≡ flying.old.items) }
{
    flying.push(one)?;
    Ok(most.max(flying.len() as u64))
}

/// Removes a child from the children in flight, and returns the child.
#[tactic(auto, using(crate::proofs::InFlight::end_laws))]
fn take_child(
    flying: &mut Vec<Flying<Option<StartFault>>>,
    ticket: u64,
) -> Option<Flying<Option<StartFault>>>
    ensures entry { IfSome result (λ _. flying.new.items ≡ other_entries ticket flying.old.items) }
    ensures some { IfSome result
        (λ f. (child_at ticket (children_in flying.old.items) ≡ Some f.child)
        × (children_in flying.new.items ≡ without ticket (children_in flying.old.items))) }
    ensures fate { IfSome result (λ f. fate_at ticket flying.old.items ≡ f.kept) }
    ensures doomed { IfSome result (λ f. is_doomed f ≡ true
        → list_any is_doomed flying.old.items ≡ true) }
    ensures none { IfNone result (is_flying ticket (children_in flying.old.items) ≡ false) }
{
    take_out(flying, ticket)
}

/// Returns the child of a command, with the reply that the child will return.
fn child_in_flight(
    alloc: Global,
    files: &FileMap,
    command: &Command,
    ticket: u64,
    reply: Reply,
) -> Result<ChildInFlight, AllocError>
    ensures { IfOk result
        (λ child. child
        ≡ record {
          ticket = ticket;
          command = command.now;
          ended =
              record { status = reply.status; stdout = reply.stdout; stderr = reply.stderr };
          files = reply.files;
          before = inside_out command.now.out files.now;
        }) }
{
    let before = inside_out(alloc, files, &command.out)?;
    let command = command.copy(alloc)?;
    Ok(ChildInFlight {
        ticket,
        command,
        ended: Ended {
            status: reply.status,
            stdout: reply.stdout,
            stderr: reply.stderr,
        },
        files: reply.files,
        before,
    })
}

/// Returns the fault with which a child in flight ends. No child in flight ends with `CannotStart`;
/// for this fault, the function returns `Died`.
fn fault_at_end(fault: StartFault) -> StartFault
    ensures kept { fault ≢ StartFault.CannotStart → result ≡ fault }
    ensures end { (result ≡ StartFault.OutOfMemory)
        ⊎ ((result ≡ StartFault.Died) ⊎ (result ≡ StartFault.Capture)) }
{
    match fault {
        StartFault::CannotStart => StartFault::Died,
        StartFault::Died => StartFault::Died,
        StartFault::Capture => StartFault::Capture,
        StartFault::OutOfMemory => StartFault::OutOfMemory,
    }
}

/// Returns the fault with which a child ends now: `Died` if the fuse is 1; otherwise the child's
/// own fate, if the child has a fate.
fn fate_now(fails_now: bool, kept: Option<StartFault>) -> Option<StartFault>
    ensures burnt { fails_now ≡ true → result ≡ Some StartFault.Died }
    ensures none { fails_now ≡ false → kept ≡ None → result ≡ None }
    ensures exit_fails { fails_now ≡ false
        → IfSome kept (λ e. e ≢ StartFault.CannotStart → result ≡ Some e) }
    ensures doomed { fails_now ≡ false → IfSome result (λ e. is_some kept ≡ true) }
    ensures end { IfSome result (λ e. (e ≡ StartFault.OutOfMemory)
        ⊎ ((e ≡ StartFault.Died) ⊎ (e ≡ StartFault.Capture))) }
{
    if fails_now {
        return Some(StartFault::Died);
    }
    match kept {
        Some(fault) => Some(fault_at_end(fault)),
        None => None,
    }
}

/// Returns the result of a child whose files were put in its folder.
fn ended_by(landed: Result<(), StartFault>, child: ChildInFlight) -> Result<Ended, StartFault>
    ensures ok { OnOk landed (result ≡ Ok child.ended) }
    ensures err { IfErr landed (λ e. result ≡ Err e) }
{
    let (child, ()) = with_next(child, landed)?;
    Ok(child.ended)
}

impl<C: Child> Memory<C> {
    /// Returns the reply of the child to a command, given what the child sees now.
    fn reply(&self, alloc: Global, command: &Command) -> Result<Reply, AllocError>
        ensures { IfOk result
            (λ reply. reply ≡ C.answers command.now (seen_by command.now self.now.world)) }
    {
        let sight = Sight {
            files: &self.files,
            variables: &self.variables,
            command,
        };
        match self.child.reply(alloc, command, &sight) {
            Ok(reply) => Ok(reply),
            Err(_) => Err(AllocError),
        }
    }

    /// Returns the child that is spawned for a command now.
    fn child_for(
        &self,
        alloc: Global,
        command: &Command,
        ticket: u64,
    ) -> Result<ChildInFlight, AllocError>
        ensures { IfOk result
            (λ child. child
            ≡ child_spawned (C.answers command.now) command.now self.now.world ticket) }
    {
        let reply = self.reply(alloc, command)?;
        child_in_flight(alloc, &self.files, command, ticket, reply)
    }

    /// Writes the first half of a reply's files, in byte order, in the command's folder.
    fn leave(
        &mut self,
        alloc: Global,
        out: &Option<PathText>,
        made: &[(RelativePath, Bytes)],
    ) -> Result<(), AllocError>
        ensures half { OnOk result (self.new.world ≡ put_half out.now made.now self.old.world) }
        ensures only { ChangesOnlyInSome out.now self.old.world self.new.world }
        ensures same { record self.new { world = self.old.world } ≡ self.old }
    {
        match out {
            Some(out) => leave_half(alloc, &mut self.files, out, made),
            None => Ok(()),
        }
    }

    /// Spawns a child and writes half of its files.
    #[tactic(auto, using(crate::proofs::InFlight::fly_laws))]
    fn fly(
        &mut self,
        alloc: Global,
        command: &Command,
        fate: Option<StartFault>,
    ) -> Result<u64, StartFault>
        ensures fresh { IfOk result
            (λ ticket. is_flying ticket (children_in self.old.flying) ≡ false) }
        ensures memory { IfErr result (λ e. e ≡ StartFault.OutOfMemory) }
        ensures flying { IfOk result
            (λ ticket. self.new.flying ≡ self.old.flying
            ++ record {
              child = child_spawned
                  (C.answers command.now) command.now self.old.world ticket;
              kept = fate;
            } ∷ []) }
        ensures children { children_in self.new.flying
            ≡ flown (child_spawned (C.answers command.now) command.now self.old.world) result
            (children_in self.old.flying) }
        ensures most { self.new.most
            ≡ most_after result (length (children_in self.old.flying) + 1) self.old.most }
        ensures kept { OnErr result (self.new.flying ≡ self.old.flying) }
        ensures half { OnOk result (self.new.world ≡ put_half command.now.out
            (C.answers command.now (seen_by command.now self.old.world)).files self.old.world) }
        ensures only { ChangesOnlyInSome command.now.out self.old.world self.new.world }
        ensures same { record self.new {
          world = self.old.world;
          flying = self.old.flying;
          most = self.old.most;
        } ≡ self.old }
    {
        let Some(ticket) = free_ticket(self.flying.as_slice()) else {
            return Err(StartFault::OutOfMemory);
        };
        let child = self.child_for(alloc, command, ticket)?;
        let left = self.leave(alloc, &command.out, child.files.as_slice());
        let (child, ()) = with_next(child, left)?;
        self.most = add_child(&mut self.flying, self.most, Flying { child, kept: fate })?;
        Ok(ticket)
    }

    /// Spawns a child, or fails, as the fuse and the deaths decide.
    pub(super) fn begin(&mut self, alloc: Global, command: &Command) -> Result<u64, StartFault>
        ensures answers { SpawnFails command.now.out result self.old }
        ensures spawns { SpawnsIn C.answers command.now result self.old self.new }
        ensures children { children_in self.new.flying
            ≡ flown (child_spawned (C.answers command.now) command.now self.old.world)
            result (children_in self.old.flying) }
        ensures tally { self.new.tally ≡ self.old.tally }
        ensures fails { IfErr result (λ e. e ≢ StartFault.OutOfMemory → may_fail self.old ≡ true) }
        ensures later { may_fail self.new ≡ true → may_fail self.old ≡ true }
    {
        let fails_now = self.fuse == 1;
        self.fuse = self.fuse.saturating_sub(1);
        if fails_now {
            return Err(StartFault::CannotStart);
        }
        let fate = fate(self.deaths.as_slice(), &command.out);
        if fate == Some(StartFault::CannotStart) {
            drop_death(&mut self.deaths, &command.out);
            return Err(StartFault::CannotStart);
        }
        let ticket = self.fly(alloc, command, fate)?;
        drop_death(&mut self.deaths, &command.out);
        Ok(ticket)
    }

    /// Puts the files of a child into its folder if the child replies, or fails with the child's
    /// fate.
    fn land(
        &mut self,
        alloc: Global,
        fate: Option<StartFault>,
        child: &ChildInFlight,
    ) -> Result<(), StartFault>
        ensures ok { OnOk result
            ((fate ≡ None)
            × (self.new.world
            ≡ landing child.now.command.out child.now.files child.now.before self.old.world)) }
        ensures err { IfErr result
            (λ e. fate ≡ Some e ⊎ ((fate ≡ None) × (e ≡ StartFault.OutOfMemory))) }
        ensures stands { IfSome fate (λ e. self.new.world ≡ self.old.world) }
        ensures only { ChangesOnlyInSome child.now.command.out self.old.world self.new.world }
        ensures same { record self.new { world = self.old.world } ≡ self.old }
    {
        match (fate, &child.command.out) {
            (Some(fault), _) => Err(fault),
            (None, Some(out)) => {
                land(
                    alloc,
                    &mut self.files,
                    out,
                    &child.before,
                    child.files.as_slice(),
                )?;
                Ok(())
            }
            (None, None) => Ok(()),
        }
    }

    /// Ends a child, with its result or a fault, as the fuse and the child's fate decide.
    pub(super) fn end(&mut self, alloc: Global, ticket: u64) -> Result<Ended, StartFault>
        requires flies { is_flying ticket (children_in self.old.flying) ≡ true }
        ensures answers { EndFails ticket result self.old }
        ensures ends { EndsIn ticket result self.old self.new }
        ensures children { children_in self.new.flying
            ≡ without ticket (children_in self.old.flying) }
        ensures tally { self.new.tally ≡ self.old.tally }
        ensures fails { IfErr result (λ e. e ≢ StartFault.OutOfMemory → may_fail self.old ≡ true) }
    {
        let Some(flying) = take_child(&mut self.flying, ticket) else {
            unreachable!();
        };
        let fate = fate_now(self.fuse == 1, flying.kept);
        self.fuse = self.fuse.saturating_sub(1);
        let landed = self.land(alloc, fate, &flying.child);
        ended_by(landed, flying.child)
    }
}
