// Times and counts of the store: so many items, so many operations of each kind.
//   bench_store ITEMS OPERATIONS          does all kinds and prints what it counted
//   bench_store ITEMS OPERATIONS times    prints the times too
//   bench_store ITEMS OPERATIONS KIND     does one kind alone: none, look, put or renew (removed, and put again)
#![tactic(auto)]

ghost use Rattle.std.specs.Prelude.{◌≡◌, ◌+◌, ◌*◌, ◌<◌, ◌≤◌, length, IfSome};
ghost use Rattle.store.specs.Calls.{Held};

use std::time::Instant;
use std::{env, io};
use store::start::open_region;
use work::{Fill, Put, Renew, all, look_all};

mod work;

const MOST: usize = 65536;

// The number that a word says, and at most `most`.
fn number(word: Option<String>, most: usize) -> Option<usize>
    ensures { IfSome result (λ n. n ≤ most) }
{
    let n = word?.as_str().parse::<usize>().ok()?;
    Some(n.min(most))
}

#[derive(Clone, Copy)]
enum Kind {
    Look,
    Put,
    Renew,
}

impl Kind {
    fn told(self) -> &'static str {
        match self {
            Kind::Look => "found",
            Kind::Put => "put",
            Kind::Renew => "renewed",
        }
    }

    // How many of so many operations did what they are for.
    fn count(self, region: &mut [u64], items: u64, operations: u64) -> u64
        requires held { Held region.old }
        requires some { 0 < items }
        ensures held { Held region.new }
    {
        match self {
            Kind::Look => look_all(region, items, operations),
            Kind::Put => all::<Put>(region, items, operations),
            Kind::Renew => all::<Renew>(region, items, operations),
        }
    }
}

// Which kinds of operations to do, and whether to print times.
#[derive(Clone, Copy)]
struct Plan {
    kinds: &'static [Kind],
    times: bool,
}

fn plan_of(word: Option<String>) -> Plan {
    let all: &'static [Kind] = &[Kind::Look, Kind::Put, Kind::Renew];
    let (kinds, times): (&'static [Kind], bool) = match word {
        Some(word) => match word.as_str() {
            "none" => (&[], false),
            "look" => (&[Kind::Look], false),
            "put" => (&[Kind::Put], false),
            "renew" => (&[Kind::Renew], false),
            "times" => (all, true),
            _ => (all, false),
        },
        None => (all, false),
    };
    Plan { kinds, times }
}

fn tell(rt: &HostRuntime, what: &str, done: u64, start: Instant, times: bool) -> io::Result<()> {
    if times {
        let spent = start.elapsed(rt)?.as_micros();
        println!(rt; "{what} {done} in {spent} us")
    } else {
        println!(rt; "{what} {done}")
    }
}

fn run(
    rt: &HostRuntime,
    region: &mut [u64],
    items: usize,
    operations: u64,
    plan: Plan,
) -> io::Result<()>
    requires { (items ≤ MOST) × (length region.old ≡ 2 + 43 * (items + 1)) }
{
    if items == 0 {
        return println!(rt; "nothing to do");
    }
    let n = items as u64;
    open_region(region, items + 1);
    let start = Instant::now(rt)?;
    let done = all::<Fill>(region, n, n);
    tell(rt, "filled", done, start, plan.times)?;
    for kind in plan.kinds {
        let start = Instant::now(rt)?;
        let done = kind.count(region, n, operations);
        tell(rt, kind.told(), done, start, plan.times)?;
    }
    println!(rt; "words {}", region.len())
}

fn main(rt: HostRuntime) -> io::Result<()> {
    let mut args = env::args(&rt)?;
    let _program = args.next();
    let items = number(args.next(), MOST).unwrap_or(0);
    let operations = number(args.next(), 1000000000).unwrap_or(0);
    let plan = plan_of(args.next());
    let mut region = vec![in rt.alloc(); 0u64; 2 + 43 * (items + 1)]?;
    run(&rt, &mut region, items, operations as u64, plan)
}
