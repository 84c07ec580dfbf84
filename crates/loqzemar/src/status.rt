// What a function answers.
pub(crate) const DONE: u32 = 0;

pub(crate) const NO_MEMORY: u32 = 1;

pub(crate) const NO_POD: u32 = 2;

pub(crate) const NOBODY: u32 = 3;

pub(crate) const BAD_CALL: u32 = 4;

pub(crate) const BAD_TEXT: u32 = 5;

pub(crate) const NOT_ARMED: u32 = 6;

pub(crate) const NO_SUCH_EFFECT: u32 = 7;

pub(crate) const BAD_NUMBER: u32 = 8;

pub(crate) const TOO_SMALL: u32 = 9;

pub(crate) const DIFFERS: u32 = 10;

pub(crate) const BAD_SCRIPT: u32 = 11;
