// What a person is told besides, where a script is refused.
use std::io::IsTerminal;

/// Where standard error is a terminal, it is told which program says what is wrong in a script; elsewhere nothing is said.
pub fn suggest_check(rt: &HostRuntime, program: &str) {
    if rt.stderr().is_terminal() {
        let _ = eprintln!(rt; "{program}: `lwpcheck` tells what is wrong in a script");
    }
}
