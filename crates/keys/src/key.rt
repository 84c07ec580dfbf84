// Numbers written as bytes.
ghost use Rattle.std.specs.Prelude.{◌≡◌, ◌++◌, ◌∷◌, ◌≤◌, [], OnOk};
ghost use Rattle.keys.specs.Numbers.{turned};
ghost use Rattle.keys.specs.Spelling.{number_bytes, spelt};

use std::alloc::AllocError;
use std::marker::Model;

/// Numbers, seen as their list, in the bytes that spell them.
#[derive(Drop)]
pub struct Key {
    bytes: Vec<u8>,
}

impl Model for Key {
    ghost use Rattle.std.specs.Prelude.{List, ℕ, ◌≡◌};
    ghost use Rattle.keys.specs.Spelling.{numbers_in, spelt};

    ghost Value = { List ℕ };

    ghost view = { λ k. numbers_in k.bytes.items };

    ghost invariant = { λ k. k.bytes.items ≡ spelt (numbers_in k.bytes.items) };
}

// A number, in a byte for each 7 bits.
fn put_number(bytes: &mut Vec<u8>, number: u64) -> Result<(), AllocError>
    ensures { OnOk result (bytes.new.items ≡ bytes.old.items ++ number_bytes number) }
{
    let mut rest = number;
    while rest >= 128 {
        bytes.push(128 + (rest % 128) as u8)?;
        rest /= 128;
    }
    bytes.push(rest as u8)?;
    Ok(())
}

impl Key {
    /// No numbers, in memory that other bytes were in.
    pub fn over(bytes: Vec<u8>) -> Key
        ensures { result ≡ [] }
    {
        let mut bytes = bytes;
        bytes.clear();
        Key { bytes }
    }

    /// The bytes that spell the numbers.
    pub fn into_bytes(self) -> Vec<u8>
        ensures { result.items ≡ spelt self }
    {
        self.bytes
    }

    /// One number more.
    #[inline(always)]
    pub fn put(&mut self, number: u64) -> Result<(), AllocError>
        ensures { OnOk result (self.new ≡ self.old ++ number ∷ []) }
    {
        if number < 128 {
            self.bytes.push(number as u8)?;
            return Ok(());
        }
        self.put_long(number)
    }

    /// A number more that is small, or the greatest of a machine word, as that of nobody is. Either takes few bytes.
    #[inline(always)]
    pub fn put_turned(&mut self, number: u64) -> Result<(), AllocError>
        ensures { OnOk result (self.new ≡ self.old ++ turned number ∷ []) }
    {
        if number == u64::MAX {
            return self.put(0);
        }
        self.put(number + 1)
    }

    // A number of 128 or more. It stands apart from those that take one byte.
    #[inline(never)]
    fn put_long(&mut self, number: u64) -> Result<(), AllocError>
        requires { 128 ≤ number }
        ensures { OnOk result (self.new ≡ self.old ++ number ∷ []) }
    {
        let Ok(()) = put_number(&mut self.bytes, number) else {
            // A part of the number may stand there.
            self.bytes.clear();
            return Err(AllocError);
        };
        Ok(())
    }

    /// Some numbers more, without how many.
    pub fn put_all(&mut self, numbers: &[u64]) -> Result<(), AllocError>
        ensures { OnOk result (self.new ≡ self.old ++ numbers.now) }
    {
        for number in numbers {
            self.put(*number)?;
        }
        Ok(())
    }

    /// Some bytes more, each a number, without how many.
    pub fn put_each(&mut self, bytes: &[u8]) -> Result<(), AllocError>
        ensures { OnOk result (self.new ≡ self.old ++ bytes.now) }
    {
        for byte in bytes {
            self.put(*byte as u64)?;
        }
        Ok(())
    }
}
