// Texts by names in a part of lent words: the commands of the store, against its definitions.
#![tactic(auto)]

ghost use Rattle.store.specs.Laws.{RegionLaws};

pub mod bytes;
pub mod change;
pub mod commands;
pub mod find;
pub mod index;
pub mod reply;
pub mod row;
pub mod start;

// What a region of words owes of any command.
pub fn region_stands()
    ensures { RegionLaws }
{}
