// A gate that borrows the script whose lines it has.
ghost use Rattle.std.specs.Prelude.{◌≡◌, IfOk};
ghost use Rattle.event_gate.specs.Shelves.{left_of_client};
ghost use Rattle.script_body.specs.Posted.{IsPosted};
ghost use Rattle.script_body.specs.Places.{line_at};
ghost use Rattle.script_body.specs.Stocked.{stock_of};
ghost use Rattle.script_text.specs.Script.{lines_posted};

use event_gate::{Gate, Rack};
use lwp_types::{Line, NoMemory, Text};
use script_text::Script;
use std::alloc::Global;
use std::marker::Model;

// How many numbers a client can have.
const CLIENTS: usize = 256;

/// The lines of a script's clients, which are all there from the start, seen as those taken and those left of each event.
pub struct ScriptGate<'s> {
    script: &'s Script,
    // Of each event, the places of its posts in the script. Each event has a list of its own, and not a link from post to post, so
    // that the laws of shelves hold of it.
    places: Rack<u32>,
    // By the number of the client, how many of its lines are left.
    left: Vec<u32>,
}

// PROVER: written by hand, so that a function that drops one calls this instead of repeating its proof.
impl<'s> Drop for ScriptGate<'s> {
    fn drop(self) {
        let ScriptGate {
            script: _,
            places: _,
            left: _,
        } = self;
    }
}

impl<'s> Model for ScriptGate<'s> {
    ghost use Rattle.event_gate.specs.Shelves.{Shelves, left_of_client};
    ghost use Rattle.script_body.specs.Places.{shelves_by};
    ghost use Rattle.script_text.specs.Script.{lines_posted};
    ghost use Rattle.std.specs.Prelude.{ℕ, length, slice_index, ◌≡◌};

    ghost Value = { Shelves };

    ghost view = { λ s. shelves_by (lines_posted s.script.now) s.places };

    ghost invariant = { λ s. (length s.places ≡ 256)
        × (length s.left.items ≡ 256)
        × ((c : ℕ) → slice_index s.left.items c ≡ left_of_client c (shelves_by (lines_posted s.script.now) s.places)) };
}

// The line of the post at this place.
fn line_at<'s>(script: &'s Script, place: u32) -> Line<'s>
    ensures { result ≡ line_at (lines_posted script.now) place }
{
    match script.posts.as_slice().get(place as usize) {
        Some(post) => Line {
            client: post.client,
            seq: post.seq,
            text: script.texts.get(post.text as usize),
        },
        None => Line {
            client: 0,
            seq: 0,
            text: Text::empty(),
        },
    }
}

// Whose line it is.
fn client_of(line: &Line) -> u8
    ensures { result ≡ line.now.client }
{
    line.client
}

/// A gate with all lines of a script in place.
pub fn stock<'s>(alloc: Global, script: &'s Script) -> Result<ScriptGate<'s>, NoMemory>
    requires { IsPosted script.now }
    ensures { IfOk result (λ gate. gate ≡ stock_of script.now) }
{
    let clients = script.clients.as_slice();
    let posts = script.posts.as_slice();
    let mut places = Rack::new(alloc)?;
    let mut left = Vec::from_elem(alloc, 0, CLIENTS)?;
    for place in 0..posts.len() {
        let client = usize::from(posts[place].client);
        places.add(clients[client], place as u32)?;
        left[client] += 1;
    }
    Ok(ScriptGate {
        script,
        places,
        left,
    })
}

impl<'s> Gate<'s> for ScriptGate<'s> {
    ghost stock = { λ g. g };

    #[inline(always)]
    fn take(&mut self, event: u8) -> Option<Line<'s>> {
        let place = self.places.next(event)?;
        let line = line_at(self.script, place);
        let client = usize::from(client_of(&line));
        self.left[client] -= 1;
        Some(line)
    }

    fn next_left(&self, from: u8) -> Option<u8> {
        self.places.next_left(from)
    }

    fn left(&self, client: u8) -> u32 {
        self.left[usize::from(client)]
    }
}
