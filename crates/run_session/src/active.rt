// One activation.

ghost use Rattle.std.specs.Prelude.{◌≡◌};
ghost use Rattle.run_session.specs.Viewed.{seen_of};

use crate::log::Log;
use crate::now::Now;
use resume_rebuild::Rebuilt;
use trace_meaning::Value;
use x64_machine::Machine;

/// What a start was given, the machine, the calls, the failures that were counted, the attached bridges with the failures before
/// each, where it stands, what it rebuilds, and the bytes that were taken at first and at a return, before anything was rebuilt.
#[derive(Drop)]
pub(crate) struct Active {
    pub(crate) trace: u32,
    pub(crate) inputs: Vec<Value>,
    pub(crate) machine: Machine,
    pub(crate) log: Log,
    pub(crate) failures: u64,
    pub(crate) cuts: Vec<(u32, u64)>,
    pub(crate) stands: Now,
    pub(crate) rebuilt: Rebuilt,
    pub(crate) first_taken: u64,
    pub(crate) last_taken: Option<u64>,
}

impl Active {
    /// The bytes that were allocated, without what was rebuilt.
    pub(crate) fn bytes(&self) -> u64
        ensures { result ≡ (seen_of self.now).bytes }
    {
        let taken = match self.last_taken {
            None => self.machine.arena().taken(),
            Some(taken) => taken,
        };
        taken.saturating_sub(self.first_taken)
    }
}
