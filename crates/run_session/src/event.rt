// One event of an activation.

ghost use Rattle.std.specs.Prelude.{◌≡◌, ◌≢◌, ◌+◌, ◌^◌, ◌<◌, ◌↔◌, IsTrue};
ghost use Rattle.trace_ops.specs.InRange.{IsTableInRange};
ghost use Rattle.arena_world.specs.Prebuilt.{IsHostOf};
ghost use Rattle.opt_meaning.specs.Pieces.{all_pieces};
ghost use Rattle.x64_machine.specs.Kept.{HasShape, StandsAfter};
ghost use Rattle.x64_machine.specs.State.{one_if};
ghost use Rattle.run_session.specs.declared.now.Now.TheVariants.{Going as IsGoing};
ghost use Rattle.run_session.specs.Guards.{AreGuardPlaces};
ghost use Rattle.run_session.specs.Keeping.{IsServed, IsKept};
ghost use Rattle.run_session.specs.Turning.{Settles, MakesEvent, MakesOne, KeepsGiven};
ghost use Rattle.run_session.specs.Viewed.{seen_of};

use crate::active::Active;
use crate::calling::host_call;
use crate::counting::takes_guard;
use crate::now::Now;
use crate::returning::returned;
use crate::starting::Setting;
use session_host::answers_are_quiet;
use std::alloc::Global;
use x64_machine::{Stop, Turn, instructions_are_counted};

/// Whether an activation goes on.
pub(crate) fn is_going(now: Now) -> bool
    ensures { IsTrue result ↔ (now ≡ IsGoing) }
{
    matches!(now, Now::Going)
}

fn count_if(counts: bool, active: &mut Active) -> Now
    requires { active.old.failures < 2 ^ 63 }
    ensures now { result ≡ IsGoing }
    ensures failures { active.new ≡ record active.old { failures = active.old.failures + one_if counts } }
{
    active.failures += u64::from(counts);
    Now::Going
}

impl<'a> Setting<'a> {
    // What an activation comes to behind a turn of its machine.
    fn settle(&self, alloc: Global, turn: Turn, counts: bool, active: &mut Active) -> Now
        requires range { IsTableInRange self.now.set.now.table }
        requires host { IsHostOf self.now.set.now.table self.now.host.now }
        requires served { IsServed self.now.set.now.table (all_pieces self.now.opt.now) self.now.image.now }
        requires kept { IsKept self.now.set.now.table self.now.image.now.pieces active.old }
        requires going { active.old.stands ≡ IsGoing }
        requires shape { HasShape active.old.machine }
        requires stands { StandsAfter turn active.old.machine }
        requires few { active.old.failures < 2 ^ 63 }
        ensures { Settles self.now.set.now.table (all_pieces self.now.opt.now) self.now.image.now.exits turn counts active.old active.new result }
    {
        match turn {
            Turn::Went => count_if(counts, active),
            Turn::Stopped(Stop::HostCall { entry }) => {
                host_call(&self.set.table, self.host, entry, active)
            }
            Turn::Stopped(Stop::Returned) => {
                returned(alloc, &self.set.table, self.opt, self.image, active)
            }
            Turn::Stopped(Stop::BadAddress { at }) => Now::Wrong { at },
            Turn::Stopped(Stop::BadCode { at }) => Now::Wrong { at },
            Turn::Stopped(Stop::UndefinedFlag { at }) => Now::Wrong { at },
        }
    }

    // An event of an activation that goes on.
    fn event(&self, alloc: Global, places: &[u32], active: &mut Active) -> Now
        requires range { IsTableInRange self.now.set.now.table }
        requires host { IsHostOf self.now.set.now.table self.now.host.now }
        requires places { AreGuardPlaces self.now.image.now.exits places.now }
        requires served { IsServed self.now.set.now.table (all_pieces self.now.opt.now) self.now.image.now }
        requires kept { IsKept self.now.set.now.table self.now.image.now.pieces active.old }
        requires going { active.old.stands ≡ IsGoing }
        requires count { active.old.machine.instructions < 2 ^ 63 }
        ensures event { MakesEvent self.now.set.now (all_pieces self.now.opt.now) self.now.image.now.bytes self.now.image.now.exits (seen_of active.old) (seen_of (record active.new { stands = result })) }
        ensures kept { IsKept self.now.set.now.table self.now.image.now.pieces (record active.new { stands = result }) }
        ensures made { MakesOne active.old.machine.instructions active.new.machine.instructions result }
        ensures given { KeepsGiven (seen_of active.old) (seen_of (record active.new { stands = result })) }
    {
        instructions_are_counted();
        answers_are_quiet();
        let counts = takes_guard(&active.machine, self.image.code(), places);
        let turn = active.machine.step(self.image.code());
        let _shape = active.machine.at();
        self.settle(alloc, turn, counts, active)
    }

    /// One event of an activation, and where it stands then. One that has ended stays.
    pub(crate) fn advance(&self, alloc: Global, places: &[u32], active: &mut Active) -> Now
        requires range { IsTableInRange self.now.set.now.table }
        requires host { IsHostOf self.now.set.now.table self.now.host.now }
        requires places { AreGuardPlaces self.now.image.now.exits places.now }
        requires served { IsServed self.now.set.now.table (all_pieces self.now.opt.now) self.now.image.now }
        requires kept { IsKept self.now.set.now.table self.now.image.now.pieces active.old }
        requires count { active.old.machine.instructions < 2 ^ 63 }
        ensures event { MakesEvent self.now.set.now (all_pieces self.now.opt.now) self.now.image.now.bytes self.now.image.now.exits (seen_of active.old) (seen_of active.new) }
        ensures kept { IsKept self.now.set.now.table self.now.image.now.pieces active.new }
        ensures made { MakesOne active.old.machine.instructions active.new.machine.instructions result }
        ensures given { KeepsGiven (seen_of active.old) (seen_of active.new) }
        ensures ended { active.old.stands ≢ IsGoing → active.new ≡ active.old }
        ensures now { active.new.stands ≡ result }
    {
        if !is_going(active.stands) {
            return active.stands;
        }
        let now = self.event(alloc, places, active);
        active.stands = now;
        now
    }
}
