ghost use Rattle.std.specs.Prelude.{◌≡◌};
ghost use Rattle.search.specs.Toy.{twice, up};

use crate::{Limits, Machine, NoMemory, Place, Verdict, explore, go, holds_of_all, judge, path_to};
use std::test::Fail;

// A number up to 9.
#[derive(Drop)]
struct Toy {
    place: u8,
}

// One more, and after 9 comes 0.
fn up(place: u8) -> u8
    ensures { result ≡ up place }
{
    if place < 9 { place + 1 } else { 0 }
}

// Twice as much, if that is no more than 9.
fn twice(place: u8) -> u8
    ensures { result ≡ twice place }
{
    if place < 5 { place + place } else { place }
}

impl Machine for Toy {
    ghost use Rattle.std.specs.Prelude.{ℕ};
    ghost use Rattle.search.specs.Toy.{toy, toy_differs};

    ghost Core = { ℕ };

    ghost moves = { λ _. toy };

    ghost core = { λ t. t.place };

    ghost keys_differ = { λ _. toy_differs };

    fn again(&self) -> Result<Toy, NoMemory> {
        Ok(Toy { place: self.place })
    }

    fn steps(&self) -> Result<u32, NoMemory> {
        Ok(2)
    }

    // A step to 8 is looked for.
    fn step(&mut self, number: u32) -> Result<bool, NoMemory> {
        self.place = if number == 0 {
            up(self.place)
        } else {
            twice(self.place)
        };
        Ok(self.place == 8)
    }

    fn key(&self, key: &mut Vec<u8>) -> Result<(), NoMemory> {
        key.clear();
        key.push(self.place)?;
        Ok(())
    }

    fn kind(&self) -> Result<Option<u32>, NoMemory> {
        Ok(if self.place == 9 { Some(3) } else { None })
    }
}

fn limits(cores: usize, copies: usize, until: bool) -> Limits {
    Limits {
        cores,
        copies,
        until,
    }
}

// By hand: 0, 1, 2, 3, 4, 6, 5, 8, 7, 9 in this order, each with two steps; 9 is found by one more than 8, which is twice 4. Twice 5
// is left at 5, and 5 is the seventh; one more than 9 is 0, but the last step from 9 leaves it.
#[test]
fn all_are_found(rt: HostRuntime) -> Result<(), Fail> {
    let toy = Toy { place: 0 };
    for copies in [0, 100] {
        let found = explore(rt.alloc(), &toy, limits(100, copies, false))?;
        assert!(rt; found.whole);
        assert_eq!(rt; found.rows.len(), 10);
        assert_eq!(rt; found.tried, 20);
        assert_eq!(rt; found.rows[9].parent, 7);
        assert_eq!(rt; found.rows[9].kind, Some(3));
        assert_eq!(rt; found.rows[8].kind, None);
        assert_eq!(rt; found.lasts.len(), 10);
        assert_eq!(rt; found.lasts[3], Some(5));
        assert_eq!(rt; found.lasts[9], Some(9));
        assert_eq!(rt; found.marked, Some(Place { core: 4, step: 1 }));
        let path = path_to(rt.alloc(), &found.rows, 9)?;
        assert_eq!(rt; path.as_slice(), [0, 0, 1, 1, 0].as_slice());
        assert_eq!(rt; go(&toy, &path)?.place, 9);
        holds_of_all(&toy, &found);
    }
    Ok(())
}

// The steps of 0, 1, 2, 3 and 4 are tried, which lead to 6, 5 and 8 as well.
#[test]
fn the_search_ends_with_a_step_to_8(rt: HostRuntime) -> Result<(), Fail> {
    let found = explore(rt.alloc(), &Toy { place: 0 }, limits(100, 100, true))?;
    assert!(rt; !found.whole);
    assert_eq!(rt; found.marked, Some(Place { core: 4, step: 1 }));
    assert_eq!(rt; found.rows.len(), 8);
    assert_eq!(rt; found.lasts.len(), 5);
    assert_eq!(rt; found.tried, 10);
    Ok(())
}

// There is no room for 6, 5 and 8, but the step to 8 is tried.
#[test]
fn the_first_five_are_searched(rt: HostRuntime) -> Result<(), Fail> {
    let found = explore(rt.alloc(), &Toy { place: 0 }, limits(5, 1, false))?;
    assert!(rt; !found.whole);
    assert_eq!(rt; found.rows.len(), 5);
    assert_eq!(rt; found.tried, 10);
    assert_eq!(rt; found.rows[4].parent, 2);
    assert_eq!(rt; found.rows[4].step, 1);
    assert_eq!(rt; found.lasts.len(), 5);
    assert_eq!(rt; found.lasts[3], None);
    assert_eq!(rt; found.marked, Some(Place { core: 4, step: 1 }));
    Ok(())
}

#[test]
fn the_nearest_is_told(rt: HostRuntime) -> Result<(), Fail> {
    let toy = Toy { place: 0 };
    match judge(rt.alloc(), &toy, limits(100, 4, true))? {
        Verdict::Fails(path) => assert_eq!(rt; path.as_slice(), [0, 0, 1, 1, 0].as_slice()),
        _ => assert!(rt; false),
    }
    let cut = matches!(
        judge(rt.alloc(), &toy, limits(9, 4, false))?,
        Verdict::Unknown
    );
    assert!(rt; cut);
    Ok(())
}
