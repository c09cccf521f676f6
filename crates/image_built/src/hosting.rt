// The host of a session, in the arena, is as the laws ask of a host.

ghost use Rattle.image_built.specs.Hosting.{ArenaHostsDo};

use session_host::{answers_are_quiet, hosts_serve, starts_stand};

/// The host of a session serves each operation that asks it, starts machines rightly and makes no instruction by an answer, over
/// a set in range whose constants are words, with arenas of at least 64 KiB and at most 16 MiB.
pub fn arena_hosts_do()
    ensures { ArenaHostsDo }
{
    hosts_serve();
    starts_stand();
    answers_are_quiet();
}
