use lists::Waiting;
use lwp_types::{
    AgentRow, CondRow, Letter, Lock, Mark, NoMemory, Request, Sequence, TimerRow, WaitRow,
};

/// What a part has copied of something, as numbers.
pub trait Row: Drop {
    fn numbers(&self) -> [u64; 4];
}

impl Row for AgentRow {
    fn numbers(&self) -> [u64; 4] {
        let event = u64::from(self.event);
        [
            self.number.number,
            event,
            self.owner.number,
            u64::from(self.holding),
        ]
    }
}

impl<'s> Row for Mark<'s> {
    fn numbers(&self) -> [u64; 4] {
        match self {
            Mark::Frame => [0; 4],
            Mark::Handler { arg, .. } => [1, u64::from(*arg), 0, 0],
            Mark::Exit { reg, .. } => [2, *reg, 0, 0],
        }
    }
}

impl Row for CondRow {
    fn numbers(&self) -> [u64; 4] {
        [self.number.number, self.mon.number, 0, 0]
    }
}

impl Row for WaitRow {
    fn numbers(&self) -> [u64; 4] {
        [self.cond.number, self.tid.number, u64::from(self.depth), 0]
    }
}

impl Row for Lock {
    fn numbers(&self) -> [u64; 4] {
        [self.mon.number, self.owner.number, u64::from(self.depth), 0]
    }
}

impl Row for Request {
    fn numbers(&self) -> [u64; 4] {
        [self.mon.number, self.tid.number, u64::from(self.depth), 0]
    }
}

impl<'s> Row for Letter<'s> {
    fn numbers(&self) -> [u64; 4] {
        let room = u64::from(self.room);
        [
            self.from.number,
            self.to.number,
            room,
            u64::from(self.received),
        ]
    }
}

impl Row for TimerRow {
    fn numbers(&self) -> [u64; 4] {
        [self.tid.number, self.due, 0, 0]
    }
}

impl Row for Waiting {
    fn numbers(&self) -> [u64; 4] {
        let depth = u64::from(self.depth);
        [self.what, self.tid.number, u64::from(self.prio), depth]
    }
}

fn are<T: Row>(rows: &Sequence<T>, wanted: &[[u64; 4]]) -> bool {
    if rows.len() != wanted.len() {
        return false;
    }
    for i in 0..rows.len() {
        if rows.get(i).numbers() != wanted[i] {
            return false;
        }
    }
    true
}

// Whether a part had memory for a copy, and it is of these.
pub fn is_copy<T: Row>(rows: Result<Sequence<T>, NoMemory>, wanted: &[[u64; 4]]) -> bool {
    let Ok(rows) = rows else {
        return false;
    };
    are(&rows, wanted)
}
