// A server is opened in words that are lent to it.
// Good limits are a clause and no type of their own: a session has its limits from a memory, and would make such a value for one call.
ghost use Rattle.std.specs.Prelude.{◌≡◌, ◌+◌, ◌*◌, ◌≤◌, true, ◌++◌, length, drop};
ghost use Rattle.servers.specs.Opened.{limits_of};
ghost use Rattle.servers.specs.Promise.{GoodLimits};
ghost use Rattle.wire.specs.Sizes.{answer_size};
ghost use Rattle.memory.specs.Program.{serves, opened};
ghost use Rattle.server.specs.Opening.{memory_size, lent, Opens};
ghost use Rattle.server.specs.Heads.{head_words};

use servers::limits::Limits;
use std::error::Error;
use std::fmt;
use store::start::open_region;

// What is too short: the memory, which has to be just as long as is asked for, or the bytes for answers.
#[derive(Clone, Copy, PartialEq, Eq, Debug)]
pub enum Short {
    Memory,
    Answers,
}

impl fmt::Display for Short {
    fn fmt<W: fmt::Write>(&self, f: &mut fmt::Formatter<W>) -> fmt::Result {
        f.write_str("the memory that it was given is too short")
    }
}

impl Error for Short {}

// How many words a server needs.
pub fn memory_words(l: Limits) -> usize
    requires good { GoodLimits serves (limits_of serves l) }
    ensures { result ≡ memory_size (limits_of serves l) }
{
    16 + 2 * l.servers as usize + 68 * l.clients as usize + 123 * l.room as usize
}

// How many bytes its longest answer has.
pub fn answer_bytes(l: Limits) -> usize
    requires good { GoodLimits serves (limits_of serves l) }
    ensures { result ≡ answer_size (limits_of serves l) }
{
    let letter = 50 + 635 * l.room as usize;
    17 + 546 * l.room as usize + (l.servers as usize - 1) * letter
}

// What layout this is: the bytes `Kilvonz`, then the version 1.
const MARK: u64 = 5_433_993_681_330_665_985;

// The limits in the head.
fn write_head(mem: &mut [u64], l: Limits)
    requires { 14 ≤ length mem.old }
    ensures { mem.new ≡ head_words l ++ drop 5 mem.old }
{
    mem[0] = MARK;
    mem[1] = l.servers;
    mem[2] = l.me;
    mem[3] = l.clients;
    mem[4] = l.room;
}

// Words that are a server's as it is opened: the limits, an empty store, and 0 everywhere else.
fn write_new(mem: &mut [u64], l: Limits)
    requires good { GoodLimits serves (limits_of serves l) }
    requires long { length mem.old ≡ memory_size (limits_of serves l) }
    ensures { mem.new ≡ opened (limits_of serves l) }
{
    mem.fill(0);
    let room = l.room as usize;
    let store = 14 + 2 * l.servers as usize + 68 * l.clients as usize + 80 * room;
    open_region(&mut mem[store..], room);
    write_head(mem, l);
}

// Opens a server, or says what is too short and changes nothing.
pub fn open(mem: &mut [u64], l: Limits, out: usize) -> Result<(), Short>
    requires good { GoodLimits serves (limits_of serves l) }
    ensures value { result ≡ lent (limits_of serves l) (length mem.old) out }
    ensures memory { Opens (limits_of serves l) mem.old mem.new result }
{
    if mem.len() != memory_words(l) {
        return Err(Short::Memory);
    }
    if out < answer_bytes(l) {
        return Err(Short::Answers);
    }
    write_new(mem, l);
    Ok(())
}
