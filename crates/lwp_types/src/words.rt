// What a text is made of.

/// A few digits.
#[derive(Clone, Copy)]
pub(crate) struct Digits {
    pub(crate) len: u8,
    pub(crate) bytes: [u8; 20],
}

/// Bytes that are lent; a value that is lent, after the word that it is told with; or a thread's number, after its
/// letter. The digits lie in the text itself, which is no larger for them.
#[derive(Clone, Copy)]
pub(crate) enum Words<'s> {
    Lent(&'s [u8]),
    Is(&'s [u8]),
    Thread(Digits),
}
