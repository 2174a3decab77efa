// A client's request at a leader: one entry more in its own log, which it has reason to send.
ghost use Rattle.std.specs.Prelude.{◌<◌, length};
ghost use Rattle.servers.specs.Server.{with_request};
ghost use Rattle.texts.specs.Commands.{GoodCommand};
ghost use Rattle.wire_read.specs.Means.{command_of};
ghost use Rattle.state.specs.Memory.{Becomes, clients_in, limits_of, room_in, state_of};

use crate::rows::push_entry;
use raft_log::row::Numbers;
use state::words::Memory;
use wire_read::parts::Command;

// Its own match index is the new entry's.
pub fn request(mem: &mut Memory<'_>, client: u64, id: u64, command: Command<'_>)
    requires room { length (state_of mem.old).log < room_in mem.old }
    requires client { client < clients_in mem.old }
    requires good { GoodCommand (command_of command) }
    ensures { Becomes mem.old mem.new
        (with_request (limits_of mem.old) client id (command_of command.entry) (state_of mem.old)) }
{
    let me = mem.limits().me;
    let last = mem.last_index();
    let numbers = Numbers {
        term: mem.term(),
        server: me,
        client,
        number: id,
    };
    push_entry(mem, numbers, command);
    mem.set_match(me as usize, last + 1);
    mem.set_send(true);
}
