// How far a script's source is read, and what its bytes are fed to.
use lwp_types::NoMemory;
use script_text::ScriptReader;
use streams::Feed;

/// The most bytes that a script has.
pub const SCRIPT_MAX: usize = 16_777_216;

/// A reader of a script, to which a source is fed.
#[derive(Drop)]
pub struct FedReader {
    pub reader: ScriptReader,
}

impl Feed for FedReader {
    ghost use Rattle.script_text.specs.Pieces.{StandsAfter};

    ghost has = { λ fed bytes. StandsAfter fed.reader bytes };

    fn feed(&mut self, bytes: &[u8]) -> Result<(), NoMemory> {
        self.reader.feed(bytes)
    }
}
