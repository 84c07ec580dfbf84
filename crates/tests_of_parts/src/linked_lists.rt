ghost use Rattle.std.specs.Prelude.{◌≡◌};
ghost use Rattle.lists.specs.ChainLists.{empty_lists};

use lists::Chains;
use std::alloc::Global;

// Keys join and leave; more keys leave the lists as they are.
fn does_all(chains: &mut Chains) -> bool
    requires { chains.old ≡ empty_lists 2 }
{
    let Ok(()) = chains.reserve(4) else {
        return false;
    };
    chains.move_to_back(0, 2);
    chains.move_to_back(0, 3);
    let Ok(()) = chains.reserve(5) else {
        return false;
    };
    chains.move_to_back(1, 4);
    let first = chains.first(0);
    // 4 leaves its list for a place between the two.
    chains.move_before(4, 3);
    let none = chains.first(1);
    chains.remove(2);
    let second = chains.first(0);
    chains.move_to_back(0, 4);
    let (third, last) = (chains.first(0), chains.behind(0, 3));
    chains.clear();
    (first, none, second, third, last, chains.first(0))
        == (Some(2), None, Some(4), Some(3), Some(4), None)
}

fn is_done(alloc: Global) -> bool {
    let Ok(mut chains) = Chains::new(alloc, 2) else {
        return false;
    };
    does_all(&mut chains)
}

#[test]
fn keys_join_and_leave(rt: HostRuntime) {
    assert!(rt; is_done(rt.alloc()));
}
