//! Where a run stands in its traces, and how one operation moves it.

use crate::boxes::Boxes;
use crate::world::World;
use crate::{RecState, Value};

/// A place in a trace, with the values of its boxes; or how the run has ended, and the values with which it left the trace.
#[derive(Drop)]
pub struct Cursor {
    pub trace: u32,
    pub at: usize,
    pub guards: usize,
    pub boxes: Boxes,
    pub world: World,
    pub state: RecState,
    pub left: Vec<Value>,
}
