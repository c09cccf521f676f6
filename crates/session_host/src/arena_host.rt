//! What tells the host of a session.

use image_model::Hosted;
use trace_ops::{List, Piece, TraceSet};

/// A set, its printed pieces, and the bytes of the arena of each activation.
#[derive(Drop)]
pub struct ArenaHost {
    pub set: TraceSet,
    pub pieces: List<Piece>,
    pub arena_bytes: u64,
}

impl Hosted for ArenaHost {
    ghost use Rattle.session_host.specs.Hosting.{host_of};

    ghost host = { λ h. host_of h.set h.pieces h.arena_bytes };
}
