// The rows of a pod's lists, written into a key.
ghost use Rattle.std.specs.Prelude.{◌≡◌, ◌++◌, OnOk};
ghost use Rattle.session_cores.specs.States.{block_numbers};

use crate::part::{Part, put_list, put_text};
use crate::words::{bit, func_number, put_exit, put_flags, put_pattern};
use keys::Key;
use lwp_types::{AgentRow, Block, CondRow, Letter, Lock, Mark, Request, TimerRow, WaitRow};
use snapshots::ThreadCopy;
use std::alloc::AllocError;

// What a thread waits for.
fn put_block(key: &mut Key, block: &Block) -> Result<(), AllocError>
    ensures { OnOk result (key.new ≡ key.old ++ block_numbers block.now) }
{
    match block {
        Block::Not => key.put(0),
        Block::Joining(tid) => key.put_all(&[1, tid.number]),
        Block::Sending => key.put(2),
        Block::Receiving(None) => key.put_all(&[3, 0]),
        Block::Receiving(Some(from)) => key.put_all(&[3, 1, from.number]),
        Block::Entering(mon) => key.put_all(&[4, mon.number]),
        Block::Waiting(cond) => key.put_all(&[5, cond.number]),
        Block::Sleeping => key.put(6),
    }
}

impl<'s> Part for Mark<'s> {
    ghost use Rattle.session_cores.specs.States.{mark_numbers};

    ghost part = { mark_numbers };

    fn write(&self, key: &mut Key) -> Result<(), AllocError> {
        match self {
            Mark::Frame => key.put(0),
            Mark::Handler { pattern, func, arg } => {
                key.put_all(&[1, func_number(*func), *arg as u64])?;
                put_pattern(key, pattern)
            }
            Mark::Exit { reg, call } => {
                key.put_all(&[2, *reg])?;
                put_exit(key, call)
            }
        }
    }
}

impl<'s> Part for ThreadCopy<'s> {
    ghost use Rattle.session_cores.specs.States.{thread_numbers};
    ghost use Rattle.snapshots.specs.Copies.{row_in};

    ghost part = { λ copy. thread_numbers (row_in copy) };

    fn write(&self, key: &mut Key) -> Result<(), AllocError> {
        key.put_all(&[
            self.number.number,
            self.priority as u64,
            bit(self.suspended),
        ])?;
        put_flags(key, &self.flags)?;
        put_block(key, &self.block)?;
        put_list(key, self.marks.as_slice())
    }
}

impl Part for TimerRow {
    ghost use Rattle.session_cores.specs.States.{timer_numbers};

    ghost part = { timer_numbers };

    fn write(&self, key: &mut Key) -> Result<(), AllocError> {
        key.put_all(&[self.tid.number, self.due])
    }
}

impl<'s> Part for Letter<'s> {
    ghost use Rattle.session_cores.specs.States.{letter_numbers};

    ghost part = { letter_numbers };

    fn write(&self, key: &mut Key) -> Result<(), AllocError> {
        key.put_all(&[
            self.from.number,
            self.to.number,
            self.room as u64,
            bit(self.received),
        ])?;
        put_text(key, &self.text)
    }
}

impl Part for Lock {
    ghost use Rattle.session_cores.specs.States.{lock_numbers};

    ghost part = { lock_numbers };

    fn write(&self, key: &mut Key) -> Result<(), AllocError> {
        key.put_all(&[self.mon.number, self.owner.number, self.depth as u64])
    }
}

impl Part for Request {
    ghost use Rattle.session_cores.specs.States.{request_numbers};

    ghost part = { request_numbers };

    fn write(&self, key: &mut Key) -> Result<(), AllocError> {
        key.put_all(&[self.mon.number, self.tid.number, self.depth as u64])
    }
}

impl Part for CondRow {
    ghost use Rattle.session_cores.specs.States.{condition_numbers};

    ghost part = { condition_numbers };

    fn write(&self, key: &mut Key) -> Result<(), AllocError> {
        key.put_all(&[self.number.number, self.mon.number])
    }
}

impl Part for WaitRow {
    ghost use Rattle.session_cores.specs.States.{wait_numbers};

    ghost part = { wait_numbers };

    fn write(&self, key: &mut Key) -> Result<(), AllocError> {
        key.put_all(&[self.cond.number, self.tid.number, self.depth as u64])
    }
}

impl Part for AgentRow {
    ghost use Rattle.session_cores.specs.States.{agent_numbers};

    ghost part = { agent_numbers };

    fn write(&self, key: &mut Key) -> Result<(), AllocError> {
        key.put_all(&[
            self.number.number,
            self.event as u64,
            self.owner.number,
            bit(self.holding),
        ])
    }
}

impl Part for bool {
    ghost use Rattle.session_cores.specs.States.{flag_numbers};

    ghost part = { flag_numbers };

    fn write(&self, key: &mut Key) -> Result<(), AllocError> {
        key.put(bit(*self))
    }
}
