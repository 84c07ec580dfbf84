// What each client of a script posts.
ghost use Rattle.lwp_state.specs.Clients.{clients_from, clients_of};
ghost use Rattle.script_body.specs.Posted.{IsPosted};
ghost use Rattle.std.specs.Prelude.{◌≡◌, [], IfOk};

use lwp_types::NoMemory;
use script_text::Script;
use state_text::ClientLines;
use std::alloc::Global;

// Clients with these events, none of which posts a line.
fn silent_clients(alloc: Global, events: &[u8]) -> Result<Vec<ClientLines>, NoMemory>
    ensures { IfOk result (λ clients. clients.items ≡ clients_from 0 events.now []) }
{
    let mut clients = Vec::new(alloc);
    for place in 0..events.len() {
        clients.push(ClientLines {
            event: events[place],
            posts: 0,
        })?;
    }
    Ok(clients)
}

/// Of each client its event and how many lines it posts.
pub(crate) fn clients_of(alloc: Global, script: &Script) -> Result<Vec<ClientLines>, NoMemory>
    requires { IsPosted script.now }
    ensures { IfOk result (λ clients. clients.items ≡ clients_of script.now) }
{
    let posts = script.posts.as_slice();
    let mut clients = silent_clients(alloc, script.clients.as_slice())?;
    for place in 0..posts.len() {
        let client = usize::from(posts[place].client);
        clients[client].posts += 1;
    }
    Ok(clients)
}
