// serve: one server over a file of events. `serve SERVERS ME CLIENTS ROOM [FILE]` reads records of events from the file, or from
// standard input, and writes the records of their answers to standard output.
#![tactic(auto)]

ghost use Rattle.state.specs.Held.{limits_of};
ghost use Rattle.servers.specs.Opened.{limits_of as limits_for};
ghost use Rattle.servers.specs.Promise.{GoodLimits};
ghost use Rattle.memory.specs.Program.{serves};
ghost use Rattle.server.specs.Reached.{Reached};

use anyhow::{anyhow, bail};
use server::open::{answer_bytes, memory_words, open};
use servers::limits::Limits;
use session::run::{Taken, run};
use shell::arguments::limits;
use shell::feed::{ended, fill, keep};
use std::io::{Read, Write};
use std::process::ExitCode;
use std::{env, fs};

const CHUNK: usize = 65_536;

const MANY: usize = 1_048_576;

const USAGE: &str = "usage: serve SERVERS ME CLIENTS ROOM [FILE]";

// Answers every record of an input, as many at a time as have come and as `out` has room for.
fn serve<R: Read>(
    rt: &HostRuntime,
    input: &mut R,
    mem: &mut [u64],
    out: &mut [u8],
) -> anyhow::Result<()>
    requires reached { Reached (limits_of mem.old) mem.old }
{
    let mut buf = vec![in rt.alloc(); 0u8; CHUNK]?;
    let mut filled = 0;
    for _turn in 0..u64::MAX {
        let Taken { read, written } = run(mem, &buf[0..filled], out);
        rt.stdout().write_all(&out[0..written])?;
        keep(&mut buf, read, filled);
        let left = filled - read;
        if read > 0 {
            filled = left;
            continue;
        }
        filled = fill(input, &mut buf, left)?;
        if filled == left {
            break;
        }
    }
    Ok(ended(filled)?)
}

// Opens a server, and answers an input. The bytes for answers have room for the record of a longest answer, and for many short ones.
fn start<R: Read>(rt: &HostRuntime, l: Limits, input: &mut R) -> anyhow::Result<()>
    requires good { GoodLimits serves (limits_for serves l) }
{
    let mut mem = vec![in rt.alloc(); 0u64; memory_words(l)]?;
    let mut out = vec![in rt.alloc(); 0u8; answer_bytes(l).saturating_add(MANY)]?;
    open(&mut mem, l, out.len())?;
    serve(rt, input, &mut mem, &mut out)
}

fn run_with(rt: &HostRuntime) -> anyhow::Result<()> {
    let mut args = env::args(rt)?;
    let _program = args.next();
    let (Some(servers), Some(me), Some(clients), Some(room)) = (
        args.next(),
        args.next(),
        args.next(),
        args.next(),
    ) else {
        bail!(USAGE);
    };
    let file = args.next();
    if args.next().is_some() {
        bail!(USAGE);
    }
    let l = limits(
        servers.as_str(),
        me.as_str(),
        clients.as_str(),
        room.as_str(),
    )?;
    let Some(path) = file else {
        return start(rt, l, &mut rt.stdin());
    };
    let mut file = fs::open(rt, path.as_str()).map_err(|e| anyhow!("{path}: {e}"))?;
    start(rt, l, &mut file)
}

fn main(rt: HostRuntime) -> ExitCode {
    match run_with(&rt) {
        Ok(()) => ExitCode::SUCCESS,
        Err(trouble) => {
            // where not even this can be written, the status still tells
            let _ = eprintln!(rt; "serve: {trouble}");
            ExitCode::FAILURE
        }
    }
}
