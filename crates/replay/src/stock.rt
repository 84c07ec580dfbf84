// The lines that the clients of a script have left.
ghost use Rattle.replay.specs.Walk.{AreLeft};
ghost use Rattle.script_body.specs.Places.{line_at};
ghost use Rattle.script_body.specs.Posted.{IsPosted};
ghost use Rattle.replay.specs.Stock.{AreFrom, with_place, without_first};
ghost use Rattle.script_text.specs.Script.{lines_posted};
ghost use Rattle.std.specs.Prelude.{IfOk, OnOk, [], length, replicate, ◌<◌, ◌≡◌};

use crate::Posted;
use crate::places::Places;
use lwp_types::{Line, NoMemory, Text};
use script_text::Script;
use std::alloc::Global;
use std::marker::Model;

/// The lines of a script's clients, seen as those that each has left, in order. Of each client the places of its posts are kept, from
/// the last to the next one.
#[derive(Drop)]
pub(crate) struct ScriptLines<'s> {
    script: &'s Script,
    places: Vec<Places>,
}

impl<'s> Model for ScriptLines<'s> {
    ghost use Rattle.replay.specs.Stock.{Stock, lines_by_places};
    ghost use Rattle.script_text.specs.Script.{lines_posted};
    ghost use Rattle.std.specs.Prelude.{length, ◌≡◌};

    ghost Value = { Stock };

    ghost view = { λ s. record {
      posts = lines_posted s.script.now;
      lines = record { clients = s.script.now.clients; left = lines_by_places (lines_posted s.script.now) s.places.items };
    } };

    ghost invariant = { λ s. length s.places.items ≡ length s.script.now.clients };
}

// The line of the post at this place.
fn posted_at<'s>(script: &'s Script, place: u32) -> Line<'s>
    ensures { result ≡ line_at (lines_posted script.now) place }
{
    match script.posts.as_slice().get(place as usize) {
        Some(post) => Line {
            client: post.client,
            seq: post.seq,
            text: script.texts.get(post.text as usize),
        },
        None => Line {
            client: 0,
            seq: 0,
            text: Text::empty(),
        },
    }
}

// No places, of so many clients.
fn no_places(alloc: Global, clients: usize) -> Result<Vec<Places>, NoMemory>
    ensures { IfOk result (λ places. places.items ≡ replicate clients []) }
{
    let mut places = Vec::new(alloc);
    for _ in 0..clients {
        places.push(Places::new(alloc))?;
    }
    Ok(places)
}

// One place more of a client, before those that it has.
fn put_place(places: &mut Vec<Places>, client: usize, place: u32) -> Result<(), NoMemory>
    requires { client < length places.old.items }
    ensures { OnOk result (places.new.items ≡ with_place client place places.old.items) }
{
    places[client].put(place)
}

// The first place of a client goes.
fn pop_place(places: &mut Vec<Places>, client: usize)
    requires { client < length places.old.items }
    ensures { places.new.items ≡ without_first client places.old.items }
{
    places[client].pop();
}

// The places of the posts of each client.
fn places_of(alloc: Global, script: &Script) -> Result<Vec<Places>, NoMemory>
    requires { IsPosted script.now }
    ensures long { IfOk result (λ places. length places.items ≡ length script.now.clients) }
    ensures all { IfOk result (λ places. AreFrom (lines_posted script.now) 0 places.items) }
{
    let posts = script.posts.as_slice();
    let mut places = no_places(alloc, script.clients.len())?;
    let mut place = posts.len();
    while place > 0 {
        place -= 1;
        put_place(&mut places, usize::from(posts[place].client), place as u32)?;
    }
    Ok(places)
}

impl<'s> ScriptLines<'s> {
    /// All lines of a script, none of which was taken.
    pub(crate) fn new(alloc: Global, script: &'s Script) -> Result<ScriptLines<'s>, NoMemory>
        requires { IsPosted script.now }
        ensures clients { IfOk result (λ lines. lines.lines.clients ≡ script.now.clients) }
        ensures posts { IfOk result (λ lines. lines.posts ≡ lines_posted script.now) }
        ensures left { IfOk result (λ lines. AreLeft lines.lines (lines_posted script.now)) }
    {
        let places = places_of(alloc, script)?;
        Ok(ScriptLines { script, places })
    }
}

impl<'s> Posted<'s> for ScriptLines<'s> {
    ghost lines = { λ s. s.lines };

    ghost posts = { λ s. s.posts };

    fn clients(&self) -> usize {
        self.script.clients.len()
    }

    fn event(&self, client: usize) -> u8 {
        self.script.clients.as_slice()[client]
    }

    fn next(&self, client: usize) -> Option<Line<'s>> {
        let place = self.places[client].first()?;
        Some(posted_at(self.script, place))
    }

    fn take(&mut self, client: usize) {
        pop_place(&mut self.places, client);
    }

    fn counts(&self, alloc: Global) -> Result<Vec<u32>, NoMemory> {
        let mut counts = Vec::new(alloc);
        for client in 0..self.places.len() {
            // No client has so many lines.
            let Ok(count) = u32::try_from(self.places[client].len()) else {
                return Err(NoMemory);
            };
            counts.push(count)?;
        }
        Ok(counts)
    }
}
