// The refusals of an event that need no state, in their order: what is handed on is in its ranges, in a row and within the room.
#![tactic(auto)]

ghost use Rattle.checks.specs.Refusals.{RefusalsInOrder};

pub mod append;
pub mod check;
pub mod entry;
pub mod fields;
pub mod refusal;

// What needs no state is refused first, and then what the state refuses.
pub fn refusals_in_order()
    ensures { RefusalsInOrder }
{}
