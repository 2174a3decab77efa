// One order: servers that answer as the definitions say are together as if there were one.
// Each function stands for the statements in its contract; specs/Linearizable.antt says them.
#![tactic(auto)]

ghost use Rattle.servers.specs.Promise.{ToldTheSame, ToldWasAsked};
ghost use Rattle.one_order.specs.Linearizable.{RightIsLinearizable, OrderLinearizes, OrderOnlyGrows};
ghost use Rattle.one_order.specs.Linearizable.{LaterSeesEarlier, AtMostOnce, NumbersRise, ToldTheSameAlways};
ghost use Rattle.one_order.specs.Linearizable.{EntriesWereAsked, ToldIsApplied, ServersFollow, AppliedStays, AppliedAgree};

// The theorem: one server that did the commands in some order would have told every client what it was told.
pub fn right_is_linearizable()
    ensures { RightIsLinearizable }
{}

// That order is read off the committed log, and no client need use its numbers once.
pub fn order_linearizes()
    ensures { OrderLinearizes }
{}

// A later world's order extends an earlier one's.
pub fn order_only_grows()
    ensures { OrderOnlyGrows }
{}

// A reply is of a store that has whatever was told before the command was asked.
pub fn later_sees_earlier()
    ensures { LaterSeesEarlier }
{}

// No command is done twice, and those of one client are done in the order of their numbers.
pub fn at_most_once()
    ensures once { AtMostOnce }
    ensures rising { NumbersRise }
{}

// Told again is told the same, whether or not a number always stands for one command.
pub fn told_the_same()
    ensures given { ToldTheSame }
    ensures always { ToldTheSameAlways }
{}

// Only what was asked is in a log, and only what was asked, and is applied, is told.
pub fn told_was_asked()
    ensures entries { EntriesWereAsked }
    ensures asked { ToldWasAsked }
    ensures applied { ToldIsApplied }
{}

// Every server's store and sessions are those of the first commands of the order.
pub fn servers_follow()
    ensures { ServersFollow }
{}

// What is applied stays, and is the same at every server.
pub fn applied_stays()
    ensures stays { AppliedStays }
    ensures agrees { AppliedAgree }
{}
