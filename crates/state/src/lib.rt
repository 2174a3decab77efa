// A server's state in its words: what each word holds, read and written, proved against the states of the definitions.
#![tactic(auto)]

ghost use Rattle.state.specs.Held.{AlwaysHeld};

pub mod head;
pub mod layout;
pub mod limits;
pub mod parts;
pub mod peers;
pub mod view;
pub mod votes;
pub mod words;

// Whatever readable events came, the server's memory is held, and holds the state of the definitions.
pub fn always_held()
    ensures { AlwaysHeld }
{}
