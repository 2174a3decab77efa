// A leader settles the furthest entry of its own term that more than half of the servers have, and with it all before.
ghost use Rattle.std.specs.Prelude.{◌≡◌, ◌<◌, ◌≤◌, length, ◌==◌, nat_le};
ghost use Rattle.servers.specs.Server.{State, nth, settled_to, settles};
ghost use Rattle.raft_log.specs.Places.{entry_in};
ghost use Rattle.state.specs.Memory.{Becomes, limits_of, state_of};
ghost use Rattle.state.specs.View as view;

use raft_log::find;
use state::limits::is_majority;
use state::view::View;
use state::words::Memory;

// Whether a server is known to have the log up to an index.
fn has(mem: View<'_>, h: usize, index: usize) -> bool
    requires here { h < view.servers_in mem }
    ensures { result ≡ nat_le index (nth 0 (view.state_of mem.entry).matches h) }
{
    index as u64 <= mem.match_of(h)
}

// Whether an entry is of a term.
fn is_of(mem: View<'_>, index: usize, term: u64) -> bool
    requires some { 0 < index }
    requires there { index ≤ length (view.state_of mem).log }
    ensures { result ≡ ((entry_in index (view.log_part mem.entry)).term == term) }
{
    find::term(mem.log(), index) == term
}

// Goes from the end of the log down to what is settled already, and no further. Settling is a loop over entries with one over servers in
// it, left by a label.
pub fn settled_to(mem: View<'_>) -> u64
    ensures { result ≡ settled_to (view.limits_of mem.entry) (view.state_of mem.entry) (view.state_of mem.entry).log }
{
    let all = mem.limits();
    let term = mem.term();
    let commit = mem.commit() as usize;
    let last = mem.last_index() as usize;
    let mut settled = commit;
    'settled: for i in (commit + 1..=last).rev() {
        if is_of(mem, i, term) {
            let mut have = 0;
            for j in 0..all.servers as usize {
                if has(mem, j, i) {
                    have += 1;
                    if is_majority(all, have) {
                        settled = i;
                        break 'settled;
                    }
                }
            }
        }
    }
    settled as u64
}

pub fn settle(mem: &mut Memory<'_>)
    ensures { Becomes mem.old mem.new
        (settles (limits_of mem.old) (state_of mem.old)) }
{
    let leads = mem.is_leader();
    if leads {
        let far = settled_to(mem.view());
        mem.set_commit(far);
    }
}
