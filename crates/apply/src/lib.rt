// What is committed is applied to the store in order, and the clients of this server are told.
#![tactic(auto)]

ghost use Rattle.apply.specs.Rooms.{ToldFits};

pub mod all;
pub mod one;
pub mod session;
pub mod tell;

// Where there are 546 bytes for each entry of a full log there is room for all that is told.
pub fn told_fits()
    ensures { ToldFits }
{}
