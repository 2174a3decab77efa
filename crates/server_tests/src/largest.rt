// A server with the largest room takes as many entries as it has room for, all committed, and not one more.
ghost use Rattle.std.specs.Prelude.{◌≤◌, OnOk};
ghost use Rattle.wire.specs.Sizes.{answer_size};
ghost use Rattle.state.specs.Held.{limits_of};
ghost use Rattle.server.specs.Reached.{Reached};

use crate::notation::bytes;
use server::open::open;
use server::step::step;
use servers::limits::Limits;
use std::alloc::{AllocError, Global};
use std::process::Abort;
use std::test::Fail;

const LARGEST: Limits = Limits {
    servers: 2,
    me: 0,
    clients: 1,
    room: 65_536,
};

const WORDS: usize = 8_061_016;

const BYTES: usize = 77_398_083;

fn open_largest(mem: &mut [u64]) -> Result<(), Fail>
    ensures { OnOk result (Reached (limits_of mem.new) mem.new
        × (answer_size (limits_of mem.new) ≤ 77398083)) }
{
    open(mem, LARGEST, BYTES)?;
    Ok(())
}

// An entry of server 1 that gets the empty name.
fn push_entry(event: &mut Vec<u8>, index: u64) -> Result<(), AllocError> {
    event.push(1)?;
    event.extend_from_slice(&[0; 16])?;
    event.extend_from_slice(&index.to_le_bytes())?;
    event.extend_from_slice(&[0; 17])
}

fn all(heap: Global) -> Result<Vec<u8>, AllocError> {
    let mut event = bytes(heap, "2, 1, 2, 0# 0# 0# 65536# 65536#")?;
    for i in 0..65_536 {
        push_entry(&mut event, 65_536 - i)?;
    }
    Ok(event)
}

fn one_more(heap: Global) -> Result<Vec<u8>, AllocError> {
    let mut event = bytes(heap, "2, 1, 2, 0# 65536# 0# 65536# 1#")?;
    push_entry(&mut event, 65_537)?;
    Ok(event)
}

fn begins(rt: &impl Abort, heap: Global, out: &[u8], line: &str) -> Result<(), Fail> {
    let answer = bytes(heap, line)?;
    assert!(rt; out.starts_with(&answer));
    Ok(())
}

fn play(rt: &impl Abort, heap: Global, mem: &mut [u64], out: &mut [u8]) -> Result<(), Fail> {
    assert!(rt; BYTES <= out.len());
    open_largest(mem)?;
    let event = all(heap)?;
    let _ = step(mem, &event, out);
    begins(rt, heap, out, "2, 0# 1# 1, 18# 3, 0# 65536# 1,")?;
    let event = one_more(heap)?;
    let _ = step(mem, &event, out);
    begins(rt, heap, out, "0, 3, 0#")
}

#[test]
fn as_many_as_there_is_room_for(rt: HostRuntime) -> Result<(), Fail> {
    let heap = rt.alloc();
    let mut mem = vec![in heap; 0; WORDS]?;
    let mut out = vec![in heap; 0; BYTES]?;
    play(&rt, heap, &mut mem, &mut out)
}
