// The lines of each client.
ghost use Rattle.event_gate.specs.Clients.{of};
ghost use Rattle.lwp_explore.specs.Posts.{all_places, places_from};
ghost use Rattle.script_body.specs.Posted.{IsPosted};
ghost use Rattle.script_text.specs.Script.{lines_posted};
ghost use Rattle.std.specs.Prelude.{◌≡◌, ◌<◌, IfOk, Some, length, slice_get, slice_index};

use lwp_types::{IdList, Line, NoMemory, Sequence};
use script_text::{Post, Script};
use std::alloc::Global;
use std::marker::Model;

/// A script, with the places of each client's posts in it, in order.
#[derive(Drop)]
pub struct ClientPosts<'s> {
    script: &'s Script,
    places: Sequence<IdList>,
}

impl<'s> Model for ClientPosts<'s> {
    ghost use Rattle.lwp_explore.specs.Posts.{all_places};
    ghost use Rattle.script_body.specs.Posted.{IsPosted};
    ghost use Rattle.script_text.specs.declared.script.Script.{Script as AnyScript};
    ghost use Rattle.std.specs.Prelude.{◌≡◌, length};

    ghost Value = { AnyScript };

    ghost view = { λ p. p.script.now };

    ghost invariant = { λ p. (p.places ≡ all_places (length p.script.now.clients) p.script.now.posts) × IsPosted p.script.now };
}

// The places of a client's posts.
fn places_from(alloc: Global, posts: &[Post], client: usize) -> Result<IdList, NoMemory>
    ensures { IfOk result (λ places. places ≡ places_from client 0 posts.now) }
{
    let mut places = IdList::new(alloc);
    for place in 0..posts.len() {
        if usize::from(posts[place].client) == client {
            places.push(place as u64)?;
        }
    }
    Ok(places)
}

// The places of each client's posts. It goes over all posts once for each client.
fn all_places(alloc: Global, script: &Script) -> Result<Sequence<IdList>, NoMemory>
    ensures { IfOk result (λ places. places ≡ all_places (length script.now.clients) script.now.posts) }
{
    let mut places = Sequence::new(alloc);
    for client in 0..script.clients.len() {
        places.push(places_from(alloc, script.posts.as_slice(), client)?)?;
    }
    Ok(places)
}

impl<'s> ClientPosts<'s> {
    pub fn new(alloc: Global, script: &'s Script) -> Result<ClientPosts<'s>, NoMemory>
        requires { IsPosted script.now }
        ensures { IfOk result (λ posts. posts ≡ script.now) }
    {
        let places = all_places(alloc, script)?;
        Ok(ClientPosts { script, places })
    }

    /// How many clients there are.
    pub fn clients(&self) -> usize
        ensures { result ≡ length self.now.clients }
    {
        self.places.len()
    }

    pub fn event(&self, client: usize) -> u8
        requires { client < length self.now.clients }
        ensures { result ≡ slice_index self.now.clients client }
    {
        self.script.clients.as_slice()[client]
    }

    /// How many lines a client posts.
    pub fn count(&self, client: usize) -> u32
        requires { client < length self.now.clients }
        ensures { result ≡ length (of client (lines_posted self.now)) }
    {
        self.places.get(client).len() as u32
    }

    /// This line of the client, by its number from 0.
    pub fn line(&self, client: usize, number: u32) -> Line<'s>
        requires client { client < length self.now.clients }
        requires number { number < length (of client (lines_posted self.now)) }
        ensures { slice_get (of client (lines_posted self.now)) number ≡ Some result }
    {
        let place = self.places.get(client).get(number as usize);
        let post = self.script.posts.as_slice()[place as usize];
        Line {
            client: post.client,
            seq: post.seq,
            text: self.script.texts.get(post.text as usize),
        }
    }
}
