// A server's memory: words that are a function of limits, state and the store's region, and what is promised of the program
// over them. No code runs here; the functions carry theorems, so that the gate asks for them.
#![tactic(auto)]

ghost use Rattle.memory.specs.Program.{EachRight, EachKeeps, EachEnough, FitsOn, ServerStands};

// The program does what the definitions say, after any readable events, whatever kinds of event it takes.
pub fn right_stands()
    ensures { EachRight }
{}

// Where it refuses, not a word of its memory changes.
pub fn refusal_stands()
    ensures { EachKeeps }
{}

// Its memory is no longer than was said, and all its numbers are words of 64 bits.
pub fn memory_stands()
    ensures { EachEnough }
{}

// What the code relies on between events is kept by every readable event.
pub fn fits_stands()
    ensures { FitsOn }
{}

// All three of the server that runs.
pub fn server_stands()
    ensures { ServerStands }
{}
