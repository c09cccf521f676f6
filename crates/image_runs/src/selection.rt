//! What the laws ask of the crates above.

ghost use Rattle.image_runs.specs.Selecting.{Selected};
ghost use Rattle.image_runs.specs.Selection.{Model};

/// Data that tell the host; with what is told of pieces and their instructions it is a model, which says where values stand at each
/// operation. The laws never look into the relations of the model, so they hold for each selection of instructions that has one.
pub trait Selection {
    ghost model: { Self → Selected → Model };
}
