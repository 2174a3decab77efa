// The limits of a server as words of a command line, and what is wrong with them.
ghost use Rattle.std.specs.Prelude.{IfOk};
ghost use Rattle.servers.specs.Opened.{limits_of};
ghost use Rattle.servers.specs.Promise.{GoodLimits, thin};

use servers::limits::{Limit, Limits};
use std::error::Error;
use std::fmt;

// What is wrong with a word.
#[derive(Clone, Copy, PartialEq, Eq, Debug)]
pub enum Complaint {
    NotANumber(Limit),
    OutOfRange(Limit),
}

impl fmt::Display for Complaint {
    fn fmt<W: fmt::Write>(&self, f: &mut fmt::Formatter<W>) -> fmt::Result {
        match self {
            Complaint::NotANumber(limit) => write!(f, "{limit} is not a whole number below 2^64"),
            Complaint::OutOfRange(Limit::Servers) => write!(f, "SERVERS must be 2 to 16"),
            Complaint::OutOfRange(Limit::Me) => write!(
                f,
                "ME must be below SERVERS (servers are numbered from 0)"
            ),
            Complaint::OutOfRange(Limit::Clients) => write!(f, "CLIENTS must be 1 to 4096"),
            Complaint::OutOfRange(Limit::Room) => write!(f, "ROOM must be 1 to 65536"),
        }
    }
}

impl Error for Complaint {}

fn number(limit: Limit, text: &str) -> Result<u64, Complaint> {
    text.parse::<u64>()
        .map_err(|_| Complaint::NotANumber(limit))
}

// The limits that four words say, or the first complaint.
pub fn limits(servers: &str, me: &str, clients: &str, room: &str) -> Result<Limits, Complaint>
    ensures { IfOk result (λ l. GoodLimits thin (limits_of thin l)) }
{
    let servers = number(Limit::Servers, servers)?;
    let me = number(Limit::Me, me)?;
    let clients = number(Limit::Clients, clients)?;
    let room = number(Limit::Room, room)?;
    Limits::new(servers, me, clients, room).map_err(Complaint::OutOfRange)
}

#[cfg(test)]
mod tests {
    use super::*;
    use std::alloc::Global;
    use std::process::Abort;
    use std::test::Fail;

    fn says(
        rt: &impl Abort,
        heap: Global,
        r: Result<Limits, Complaint>,
        text: &str,
    ) -> Result<(), Fail> {
        let Err(e) = r else {
            return Err(Fail::new("no complaint"));
        };
        assert_eq!(rt; e.to_string(heap)?.as_str(), text);
        Ok(())
    }

    #[test]
    fn good_limits(rt: HostRuntime) {
        assert_eq!(rt;
            limits("3", "0", "2", "3"),
            Ok(Limits {
                servers: 3,
                me: 0,
                clients: 2,
                room: 3,
            })
        );
        assert!(rt; limits("16", "15", "4096", "65536").is_ok());
        assert!(rt; limits("2", "1", "1", "1").is_ok());
    }

    #[test]
    fn words_that_are_no_numbers(rt: HostRuntime) -> Result<(), Fail> {
        says(
            &rt,
            rt.alloc(),
            limits("three", "0", "2", "3"),
            "SERVERS is not a whole number below 2^64",
        )?;
        says(
            &rt,
            rt.alloc(),
            limits("3", "", "2", "3"),
            "ME is not a whole number below 2^64",
        )?;
        says(
            &rt,
            rt.alloc(),
            limits("3", "0", "-2", "3"),
            "CLIENTS is not a whole number below 2^64",
        )?;
        says(
            &rt,
            rt.alloc(),
            limits("3", "0", "2", "18446744073709551616"),
            "ROOM is not a whole number below 2^64",
        )
    }

    #[test]
    fn numbers_out_of_range(rt: HostRuntime) -> Result<(), Fail> {
        says(
            &rt,
            rt.alloc(),
            limits("1", "0", "2", "3"),
            "SERVERS must be 2 to 16",
        )?;
        says(
            &rt,
            rt.alloc(),
            limits("17", "0", "2", "3"),
            "SERVERS must be 2 to 16",
        )?;
        says(
            &rt,
            rt.alloc(),
            limits("3", "3", "2", "3"),
            "ME must be below SERVERS (servers are numbered from 0)",
        )?;
        says(
            &rt,
            rt.alloc(),
            limits("3", "0", "0", "3"),
            "CLIENTS must be 1 to 4096",
        )?;
        says(
            &rt,
            rt.alloc(),
            limits("3", "0", "4097", "3"),
            "CLIENTS must be 1 to 4096",
        )?;
        says(
            &rt,
            rt.alloc(),
            limits("3", "0", "2", "0"),
            "ROOM must be 1 to 65536",
        )?;
        says(
            &rt,
            rt.alloc(),
            limits("3", "0", "2", "65537"),
            "ROOM must be 1 to 65536",
        )
    }
}
