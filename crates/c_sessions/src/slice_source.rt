// Bytes that lie in memory, as a source.

use lwp_types::{Failed, Source};

/// Gives these bytes, as many at a time as are asked for, and never fails.
#[derive(Drop)]
pub struct SliceSource<'s> {
    pub left: &'s [u8],
}

impl Source for SliceSource<'_> {
    ghost use Rattle.std.specs.Prelude.{Some};

    ghost left = { λ s. Some s.left.now };

    ghost faults = { λ _. 0 };

    #[tactic(auto, using(crate::proofs::FrontLaws::read_front))]
    fn read(&mut self, buf: &mut [u8]) -> Result<usize, Failed> {
        let count = self.left.len().min(buf.len());
        let (front, rest) = self.left.split_at(count);
        buf[..count].copy_from_slice(front);
        self.left = rest;
        Ok(count)
    }
}
