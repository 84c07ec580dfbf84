// A sink that may not be there.
ghost use Rattle.lwp_live.specs.Perhaps.{faults_in, written_in};

use lwp_types::{Failed, Sink};
use std::io::Write;
use streams::GatheringSink;

/// A sink, or none, and then all bytes are taken and dropped. It tells what the sink does; where there is none, nothing.
#[derive(Drop)]
pub struct Perhaps<K: Sink + Drop> {
    pub sink: Option<K>,
}

impl<K: Sink + Drop> Sink for Perhaps<K> {
    ghost use Rattle.lwp_live.specs.Perhaps.{faults_in, written_in};

    ghost written = { λ p. written_in K.written p.sink };

    ghost faults = { λ p. faults_in K.faults p.sink };

    fn write(&mut self, bytes: &[u8]) -> Result<usize, Failed> {
        match &mut self.sink {
            Some(sink) => sink.write(bytes),
            None => Ok(bytes.len()),
        }
    }

    fn hand_on(&mut self) {
        if let Some(sink) = &mut self.sink {
            sink.hand_on();
        }
    }
}

impl<W: Write + Drop> Perhaps<GatheringSink<W>> {
    /// Writes what is gathered.
    pub fn finish(&mut self) -> Result<(), Failed> {
        match &mut self.sink {
            Some(sink) => sink.finish(),
            None => Ok(()),
        }
    }
}
