//! What the laws ask of a host.

ghost use Rattle.image_runs.specs.Session.{Host};

/// Data that tell a host: how machines start, what calls are answered and what returns show.
pub trait Hosted {
    ghost host: { Self → Host };
}
