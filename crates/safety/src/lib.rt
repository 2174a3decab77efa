// Safety: what holds of any group of servers that answer as the definitions say. Each function stands for the statements in its contract.
#![tactic(auto)]

ghost use Rattle.servers.specs.Promise.{OneLeads, LogsMatch, SettledIsSame, WhoLeadsHasIt, InARow, TurnedAway};
ghost use Rattle.safety.specs.Safety.{ElectionSafety, LeaderAppendOnly, LogMatching, StateMachineSafety, CommitsStay, OneVote};
ghost use Rattle.safety.specs.Safety.{LeaderCompleteness, LaterLeaderCompleteness};

// Of one term at most one server leads, at any one moment and over all time; and in a term a server votes for at most one.
pub fn one_leads()
    ensures now { OneLeads }
    ensures ever { ElectionSafety }
    ensures votes { OneVote }
{}

// Logs that share an entry share what is before it; they are in a row; and a leader only adds to its own.
pub fn logs_agree()
    ensures now { LogsMatch }
    ensures ever { LogMatching }
    ensures rows { InARow }
    ensures leader { LeaderAppendOnly }
{}

// Who leads has all that was committed in its term or before: at any one moment, by whatever had been committed at an earlier one, and, if
// its term is the later, by whatever is committed at all.
pub fn leader_is_complete()
    ensures now { WhoLeadsHasIt }
    ensures since { LeaderCompleteness }
    ensures ever { LaterLeaderCompleteness }
{}

// What is committed is the same everywhere, and stays so.
pub fn commits_agree()
    ensures now { SettledIsSame }
    ensures ever { StateMachineSafety }
    ensures stay { CommitsStay }
{}

// An event that is turned away changes nothing.
pub fn refusal_keeps()
    ensures { TurnedAway }
{}
