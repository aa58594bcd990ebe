//! The real objects that the words ask for.
ghost use Rattle.std.specs.Prelude.{◌≡◌, All, IfOk, map, vec_len};
ghost use Rattle.memproxy.specs.Locks as locks;
ghost use Rattle.memproxy.specs.Streams.{ends_of as ends_by};
ghost use Rattle.real_outside.specs.Dialers.{is_echo};
ghost use Rattle.real_outside.specs.Disks as disks;
ghost use Rattle.real_outside.specs.Ends.{is_streams};
ghost use Rattle.real_outside.specs.Gates.{is_once};
ghost use Rattle.real_outside.specs.Sinks.{is_error};

use crate::command_line::{ends_of, lock_of};
use capture::Memory;
use link_queue::ROOM;
use proxy_run::CREW;
use real_outside::{Made, make};
use system_network::MOST_WRITERS;
use tcp_links::LIMITS;

/// Each member of the crew may write a line on standard error at once, and one who accepts beside them.
const _: () = prove!(CREW < MOST_WRITERS);

/// All connections that the gate has out at once may wait in the crew's queue, without a growth of that.
const _: () = prove!(LIMITS.most_clients <= ROOM as u64);

/// The real objects of a run with these words.
pub(crate) fn objects_for(rt: &HostRuntime, words: &[&str]) -> Result<Made<HostRuntime>, Memory>
    ensures disk { IfOk result (λ made. disks.lock_of made.disk ≡ locks.lock_of (map (λ word. word.now) words.now)) }
    ensures crew { IfOk result (λ made. vec_len made.members ≡ CREW) }
    ensures gate { IfOk result (λ made. is_once made.gate ≡ is_streams (ends_by (map (λ word. word.now) words.now))) }
    ensures dialers { IfOk result (λ made. All (λ member. is_echo member.0 ≡ is_streams (ends_by (map (λ word. word.now) words.now))) made.members.items) }
    ensures out { IfOk result (λ made. is_error made.out ≡ is_streams (ends_by (map (λ word. word.now) words.now))) }
{
    let ends = ends_of(rt.alloc(), words)?;
    make(rt, ends, lock_of(words), CREW)
}
