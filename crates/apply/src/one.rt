// One entry of the log is applied: a command that is new is done in the store and its reply kept in the client's session; any
// other changes nothing.
ghost use Rattle.std.specs.Prelude.{◌≡◌, ◌-◌, ◌<◌, ◌≤◌, ◌&&◌, ◌||◌, length, Some, None, ◌==◌};
ghost use Rattle.servers.specs.Store.{pick, reply};
ghost use Rattle.servers.specs.Server.{do_one};
ghost use Rattle.texts.specs.Commands.{command_in};
ghost use Rattle.store.specs.Region.{region_do};
ghost use Rattle.store.specs.Calls.{OfCommand, OfPerhaps};
ghost use Rattle.raft_log.specs.Numbers.{numbers_of};
ghost use Rattle.state.specs.Memory.{Turns, clients_in, region_in, state_of};
ghost use Rattle.apply.specs.Applied.{reply_in, with_store_done, did, region_one, told_client};
ghost use Rattle.apply.specs.InMemory.{entry_of, told_of};

use crate::session::{is_again, is_new, keep, last_done};
use raft_log::find;
use raft_log::row::Numbers;
use state::words::Memory;
use store::commands::do_command;
use store::reply::Reply;

// A command on the store in memory. The applied index counts it already, so there is room for one item more.
fn do_in_store(mem: &mut Memory<'_>, command: &[u64]) -> Reply
    requires few { length (state_of mem.old).store < (state_of mem.old).applied }
    requires command { OfCommand command.now }
    ensures turns { Turns mem.old mem.new
        (with_store_done (command_in command.now) (state_of mem.old))
        (region_do (command_in command.now) (region_in mem.old)) }
    ensures after { OfPerhaps 32 result.after }
    ensures before { OfPerhaps 32 result.before }
    ensures reply { reply_in result.after result.before ≡ reply (command_in command.now) (state_of mem.old).store }
{
    let at = mem.store_at();
    do_command(&mut mem.words[at..], command)
}

// The words of the command at an index that the log has.
fn command_at<'a>(mem: &'a Memory<'_>, index: usize) -> &'a [u64]
    requires some { 0 < index }
    requires there { index ≤ length (state_of mem.now).log }
    ensures command { OfCommand result.now }
    ensures long { length result.now ≡ 76 }
    ensures value { command_in result.now ≡ (entry_of mem.now index).command }
{
    find::command_at(mem.log(), index)
}

// Does the command of an entry, and keeps its reply.
fn do_new(mem: &mut Memory<'_>, index: usize, client: usize, number: u64)
    requires some { 0 < index }
    requires there { index ≤ length (state_of mem.old).log }
    requires few { length (state_of mem.old).store < (state_of mem.old).applied }
    requires client { client < clients_in mem.old }
    ensures { Turns mem.old mem.new
        (did (entry_of mem.old index).command client number (state_of mem.old))
        (region_do (entry_of mem.old index).command (region_in mem.old)) }
{
    let mut command = [0u64; 76];
    command.copy_from_slice(command_at(mem, index));
    let reply = do_in_store(mem, &command);
    keep(mem, client, number, &reply);
}

// The client that this server tells: it took the command, which is new or the client's last one again.
fn client_to_tell(me: u64, numbers: Numbers, new: bool, again: bool) -> Option<u64>
    ensures { result ≡ pick (numbers.server == me && (new || again)) (Some numbers.client) None }
{
    (numbers.server == me && (new || again)).then_some(numbers.client)
}

// The numbers of the entry at an index that the log has.
fn numbers_at(mem: &Memory<'_>, index: usize) -> Numbers
    requires some { 0 < index }
    requires there { index ≤ length (state_of mem.now).log }
    ensures value { result ≡ numbers_of (entry_of mem.now index) }
    ensures client { result.client < clients_in mem.now }
{
    find::numbers_at(mem.log(), index)
}

// Applies the entry at an index that the log has, and says which client is to be told.
pub fn do_one(mem: &mut Memory<'_>, index: usize) -> Option<u64>
    requires some { 0 < index }
    requires there { index ≤ length (state_of mem.old).log }
    requires few { length (state_of mem.old).store < (state_of mem.old).applied }
    ensures turns { Turns mem.old mem.new
        (do_one (state_of mem.old) (entry_of mem.old index))
        (region_one (state_of mem.old) (entry_of mem.old index) (region_in mem.old)) }
    ensures told { result ≡ told_client (told_of mem.old index) }
{
    let numbers = numbers_at(mem, index);
    let client = numbers.client as usize;
    let last = last_done(mem.view(), client);
    let new = is_new(last, numbers.number);
    let again = is_again(last, numbers.number);
    let told = client_to_tell(mem.limits().me, numbers, new, again);
    if new {
        do_new(mem, index, client, numbers.number);
    }
    told
}
