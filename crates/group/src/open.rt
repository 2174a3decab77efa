// A group is opened: how much it needs, and its servers, each in its own part.
ghost use Rattle.std.specs.Prelude.{◌≡◌, ℕ, ◌*◌, ◌<◌, ◌≤◌, length};
ghost use Rattle.servers.specs.World.{limits};
ghost use Rattle.servers.specs.Opened.{opened};
ghost use Rattle.memory.specs.Program as program;
ghost use Rattle.group.specs.Opening.{Sized, FitsGroup, PlaysNew, group_sized, none_kept};
ghost use Rattle.group.specs.Playing.{group_of};

use crate::happen::{Group, Kept};
use server::open::{answer_bytes, memory_words, open};
use servers::limits::{Limit, Limits};

// A group of so many servers and clients, with room for so many entries, or the limit that is out of its range.
pub fn sized(servers: u64, clients: u64, room: u64) -> Result<Group, Limit>
    ensures value { result ≡ group_sized (opened servers 0 clients room) }
    ensures sized { FitsGroup result }
{
    let l = Limits::new(servers, 0, clients, room)?;
    Ok(Group {
        servers: l.servers,
        clients: l.clients,
        room: l.room,
        words: memory_words(l),
        longest: answer_bytes(l),
    })
}

fn open_one(mem: &mut [u64], g: Group, me: u64)
    requires sized { Sized g }
    requires there { me < g.servers }
    requires long { length mem.old ≡ g.words }
    ensures { mem.new ≡ program.opened (limits (group_of g) me) }
{
    let l = Limits {
        servers: g.servers,
        me,
        clients: g.clients,
        room: g.room,
    };
    let _ = open(mem, l, g.longest);
}

// Opens every server of the group. Nothing has happened, whatever stands in the journals.
pub fn open_group(g: Group, mems: &mut [u64]) -> Kept
    requires sized { Sized g }
    requires long { g.servers * g.words ≤ length mems.old }
    ensures none { result ≡ none_kept }
    ensures playing { PlaysNew g result mems.new }
{
    // by places, since of chunks that were lent a proof knows afterwards how long they are, and not what they hold
    for i in 0..g.servers {
        let at = i as usize * g.words;
        open_one(&mut mems[at..at + g.words], g, i);
    }
    Kept {
        happenings: 0,
        events: 0,
        answers: 0,
    }
}
