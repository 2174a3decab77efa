// A client's session: whether any command of it was done, the last number done, and its reply, in 68 words.
ghost use Rattle.std.specs.Prelude.{◌≡◌, ◌+◌, ◌-◌, ◌<◌, not, ◌&&◌, ◌||◌, ◌∷◌, ◌++◌, length, ◌==◌, nat_lt};
ghost use Rattle.servers.specs.Server.{Cached};
ghost use Rattle.state.specs.Memory.{Becomes, clients_in, state_of};
ghost use Rattle.state.specs.View as view;
ghost use Rattle.store.specs.Calls.{OfPerhaps};
ghost use Rattle.apply.specs.Applied.{session, answered, reply_in, with_session};
ghost use Rattle.apply.specs.Means.{last_of};

use state::layout::SESSION;
use state::view::View;
use state::words::Memory;
use store::reply::Reply;
use texts::copy::copy_text;

// The last number done for a client, if any was.
pub fn last_done(mem: View<'_>, client: usize) -> Option<u64>
    requires there { client < view.clients_in mem }
    ensures { result ≡ last_of (session (view.state_of mem.entry) client) }
{
    let kept = mem.session(client);
    (kept[0] == 1).then_some(kept[1])
}

// Whether a command of this number is to be done: its number is above the last done.
pub fn is_new(last: Option<u64>, number: u64) -> bool
    ensures { (x : Cached) → last ≡ last_of x → result ≡ (not x.there || nat_lt x.id number) }
{
    last.is_none_or(|done| done < number)
}

// Whether it is just the last done, asked again.
pub fn is_again(last: Option<u64>, number: u64) -> bool
    ensures { (x : Cached) → last ≡ last_of x → result ≡ (x.there && x.id == number) }
{
    last == Some(number)
}

fn pack_session(row: &mut [u64], number: u64, reply: &Reply)
    requires { length row.old ≡ 68 }
    ensures { row.new ≡ 1 ∷ (number ∷ (reply.now.after ++ reply.now.before)) }
{
    row[0] = 1;
    row[1] = number;
    copy_text(&mut row[2..35], &reply.after);
    copy_text(&mut row[35..68], &reply.before);
}

// Keeps the number of the command that was done, and its reply: what there is after it and was before.
pub fn keep(mem: &mut Memory<'_>, client: usize, number: u64, reply: &Reply)
    requires there { client < clients_in mem.old }
    requires after { OfPerhaps 32 reply.now.after }
    requires before { OfPerhaps 32 reply.now.before }
    ensures { Becomes mem.old mem.new
        (with_session client (answered number (reply_in reply.now.after reply.now.before)) (state_of mem.old)) }
{
    let at = mem.session_at(client);
    pack_session(&mut mem.words[at..at + SESSION], number, reply);
}
