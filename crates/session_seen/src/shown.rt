// What is shown of an activation.

ghost use Rattle.std.specs.Prelude.{◌≡◌, ◌++◌, ◌<◌, length, OnOk, IfOk};
ghost use Rattle.arena_objects.specs.ReadBack.{objects_in};
ghost use Rattle.seen_text.specs.States.{shows_values};
ghost use Rattle.run_session.specs.Calls.{Shows};
ghost use Rattle.session_seen.specs.Keeping.{now_seen, kept_text, StoreServes};

use run_session::{Now, Session};
use seen_text::{Seen, hidden_objects_are_free, put_counts, put_seen};
use std::alloc::{AllocError, Global};
use trace_meaning::Store;
use trace_ops::List;

fn seen_of(now: Now) -> Seen
    ensures { result ≡ now_seen now }
{
    match now {
        Now::Going => Seen::Going,
        Now::Finished(value) => Seen::Finished(value),
        Now::Exited { trace, guard } => Seen::Exited { trace, guard },
        Now::ArenaFull { asked, left } => Seen::Full { asked, left },
        Now::Waits => Seen::Waits,
        Now::Misfit { call } => Seen::Misfit { call },
        Now::Wrong { at } => Seen::Wrong(Some(at)),
    }
}

// Whether objects are shown, or values that may name some.
fn shows_values(seen: Seen) -> bool
    ensures { result ≡ shows_values seen }
{
    match seen {
        Seen::Finished(_value) => true,
        Seen::Exited { .. } => true,
        Seen::Waits => true,
        Seen::Misfit { .. } => true,
        _ => false,
    }
}

// The objects of an activation, where they are shown.
fn store_for(session: &Session, alloc: Global, a: u32, seen: Seen) -> Result<Store, AllocError>
    requires { a < length session.now.activations }
    ensures { IfOk result (λ store. Shows a session.now (λ x. StoreServes session.now.set.table seen x.machine.arena store)) }
{
    if shows_values(seen) {
        return session.store(a);
    }
    Ok(Store {
        objects: List::of(Vec::new(alloc)),
    })
}

/// Adds the state of an activation, with its frames, calls and cells, and its counts.
pub(crate) fn put_activation(
    out: &mut Vec<u8>,
    session: &Session,
    a: u32,
    name: &[u8],
) -> Result<(), AllocError>
    requires { a < length session.now.activations }
    ensures { OnOk result (Shows a session.now (λ x. out.new.items ≡ out.old.items ++ kept_text session.now.set name.now x)) }
{
    hidden_objects_are_free();
    let alloc = *out.allocator();
    let seen = seen_of(*session.now(a));
    let store = store_for(session, alloc, a, seen)?;
    put_seen(
        out,
        name,
        session.set(),
        seen,
        session.frames(a),
        session.calls(a),
        &store,
    )?;
    put_counts(out, session.counts(a))
}
