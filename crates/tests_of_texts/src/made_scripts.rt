use lwp_serve::make_script;
use std::alloc::Global;

const SMALL: &[u8] = b"lwp 1
pod 2
client 0 1
client 1 2
native db store
native s0 session 1 db
native s1 session 2 db
proc main
create db db 2 v
create a0 s0 1 -
create a1 s1 1 -
join a0
join a1
post 0 bogus
post 1 get k3
post 0 bogus
post 1 put k14 v1
post 0 del k39
post 1 bogus
post 0 quit
post 1 quit
";

fn is_small(alloc: Global) -> bool {
    let Ok(text) = make_script(alloc, 7, 2, 3) else {
        return false;
    };
    text.as_slice() == SMALL
}

#[test]
fn makes_a_small_script(rt: HostRuntime) {
    assert!(rt; is_small(rt.alloc()));
}
