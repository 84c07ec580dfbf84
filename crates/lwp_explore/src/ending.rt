// What a search comes to.
use script_session::SessionEnd;

/// What a search comes to: nothing to be told of; an end that is not well, or the line that was looked for; or there are more cores than
/// were allowed; or there is no such kind of end; or an end of the reading of the script, or a fault.
#[derive(Clone, Copy, Debug, PartialEq, Eq)]
pub enum Ending {
    Well,
    Told,
    Cut,
    Missing,
    Other(SessionEnd),
}
