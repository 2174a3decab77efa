// The five commands, on names and texts as words. Each leaves the region after it, and tells what there is after it and was before.
// Words are passed as slices, since they are parts of a row of a log or of the region: an array would be made of each where it is passed.
ghost use Rattle.std.specs.Prelude.{◌≡◌, ℕ, ◌<◌, length};
ghost use Rattle.servers.specs.Store.{get, put, remove, swap, drop_if, look};
ghost use Rattle.texts.specs.Words.{text_in, perhaps_in, perhaps_words};
ghost use Rattle.texts.specs.Commands.{command_in};
ghost use Rattle.store.specs.Region.{capacity, items_of};
ghost use Rattle.store.specs.Calls.{Held, OfText, OfPerhaps, OfCommand, SpotOf, Does};

use crate::change::{put_item, remove_item};
use crate::find::find;
use crate::reply::{Reply, told, told_none, told_text};
use texts::compare::same;

// Where a name is or goes, and what there is before the command.
#[tactic(auto, using(crate::proofs::Doing::spot_within, crate::proofs::Doing::spot_look))]
fn find_before(region: &[u64], name: &[u64]) -> (Result<usize, usize>, [u64; 33])
    requires held { Held region.now }
    requires name { OfText 8 name.now }
    ensures spot { SpotOf (text_in name.now) region.now result.0 }
    ensures told { result.1 ≡ perhaps_words 32 (look (text_in name.now) (items_of region.now)) }
{
    let spot = find(region, name);
    let before = told(region, spot);
    (spot, before)
}

pub fn do_get(region: &[u64], name: &[u64]) -> Reply
    requires held { Held region.now }
    requires name { OfText 8 name.now }
    ensures { Does (get (text_in name.now)) region.now region.now result.after result.before }
{
    let (_, before) = find_before(region, name);
    Reply {
        after: before,
        before,
    }
}

pub fn do_put(region: &mut [u64], name: &[u64], text: &[u64]) -> Reply
    requires held { Held region.old }
    requires room { length (items_of region.old) < capacity region.old }
    requires name { OfText 8 name.now }
    requires text { OfText 32 text.now }
    ensures { Does (put (text_in name.now) (text_in text.now)) region.old region.new
        result.after result.before }
{
    let (spot, before) = find_before(region, name);
    put_item(region, spot, name, text);
    let after = told_text(text); // whatever there was
    Reply { after, before }
}

#[tactic(auto, using(crate::proofs::Doing::spot_within))]
pub fn do_remove(region: &mut [u64], name: &[u64]) -> Reply
    requires held { Held region.old }
    requires name { OfText 8 name.now }
    ensures { Does (remove (text_in name.now)) region.old region.new result.after result.before }
{
    let (spot, before) = find_before(region, name);
    remove_item(region, spot);
    let after = told_none();
    Reply { after, before }
}

// If there is just what is expected, a text or none, it becomes this text.
#[tactic(auto, using(crate::proofs::Doing::length_told))]
pub fn do_swap(region: &mut [u64], name: &[u64], expected: &[u64], text: &[u64]) -> Reply
    requires held { Held region.old }
    requires room { length (items_of region.old) < capacity region.old }
    requires name { OfText 8 name.now }
    requires expected { OfPerhaps 32 expected.now }
    requires text { OfText 32 text.now }
    ensures { Does (swap (text_in name.now) (perhaps_in expected.now) (text_in text.now)) region.old region.new
        result.after result.before }
{
    let (spot, before) = find_before(region, name);
    if same(&before, expected) {
        put_item(region, spot, name, text);
        let after = told_text(text);
        Reply { after, before }
    } else {
        Reply {
            after: before,
            before,
        }
    }
}

// If there is just this text, it goes.
#[tactic(auto, using(crate::proofs::Doing::spot_within))]
pub fn do_drop_if(region: &mut [u64], name: &[u64], text: &[u64]) -> Reply
    requires held { Held region.old }
    requires name { OfText 8 name.now }
    requires text { OfText 32 text.now }
    ensures { Does (drop_if (text_in name.now) (text_in text.now)) region.old region.new result.after result.before }
{
    let (spot, before) = find_before(region, name);
    let given = told_text(text);
    if same(&before, &given) {
        remove_item(region, spot);
        let after = told_none();
        Reply { after, before }
    } else {
        Reply {
            after: before,
            before,
        }
    }
}

// A command by its words, as they stand in a row of a log, where a number says which it is.
#[tactic(auto, using(crate::proofs::CommandParts::command_parts))]
pub fn do_command(region: &mut [u64], command: &[u64]) -> Reply
    requires held { Held region.old }
    requires room { length (items_of region.old) < capacity region.old }
    requires command { OfCommand command.now }
    ensures { Does (command_in command.now) region.old region.new result.after result.before }
{
    let name = &command[1..10];
    let expected = &command[10..43];
    let text = &command[43..76];
    match command[0] {
        0 => do_get(region, name),
        1 => do_put(region, name, text),
        2 => do_remove(region, name),
        3 => do_swap(region, name, expected, text),
        _ => do_drop_if(region, name, text),
    }
}
