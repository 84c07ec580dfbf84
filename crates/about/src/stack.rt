// How large the system lets the stack become.
use std::fs;

// Where the system says what it allows the process.
const LIMITS: &str = "/proc/self/limits";

// The row of that table which is about the stack; the number after it is the limit in bytes.
const ROW: &str = "Max stack size";

// The limit in such a table, if it has one and it is a number.
fn limit_in(table: &str) -> Option<u64> {
    for line in table.lines() {
        if let Some(rest) = line.strip_prefix(ROW) {
            return rest.split_whitespace().next()?.parse().ok();
        }
    }
    None
}

/// Whether the stack of the process can't have so many bytes, as far as the system says; standard error is then told so. A
/// program that went on would end by a signal.
pub fn is_stack_too_small(rt: &HostRuntime, program: &str, least: u64) -> bool {
    let Ok(table) = fs::read_to_string(rt, LIMITS) else {
        return false;
    };
    let Some(limit) = limit_in(&table) else {
        return false;
    };
    if limit >= least {
        return false;
    }
    let _ = eprintln!(rt;
        "{program}: the stack may have {limit} bytes, and {least} are needed: see ulimit -s"
    );
    true
}
