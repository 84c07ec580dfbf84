// Small numbers as keys of a tree.
ghost use Rattle.std.specs.Prelude.{◌≡◌};

use std::cmp::Ordering;
use std::marker::Model;

/// A number of one machine word, seen as the number. It is compared a little faster than a `u64` is.
#[derive(Drop)]
pub struct Digits {
    number: u64,
}

impl Model for Digits {
    ghost use Rattle.std.specs.Prelude.{ℕ};

    ghost Value = { ℕ };

    ghost view = { λ d. d.number };
}

impl Digits {
    #[inline]
    pub fn new(number: u64) -> Digits
        ensures { result ≡ number }
    {
        Digits { number }
    }
}

impl PartialEq for Digits {
    ghost use Rattle.std.specs.Cmp.{nat_eq_equiv, partial_equiv_from_equiv};
    ghost use Rattle.std.specs.Prelude.{nat_eq};

    ghost eq = { nat_eq };

    ghost laws = { partial_equiv_from_equiv nat_eq_equiv };

    fn eq(&self, other: &Digits) -> bool {
        self.number == other.number
    }
}

impl Eq for Digits {
    ghost use Rattle.std.specs.Cmp.{nat_eq_equiv};

    ghost laws = { nat_eq_equiv };
}

impl PartialOrd for Digits {
    ghost use Rattle.std.specs.Cmp.{unsigned_po};
    ghost use Rattle.std.specs.Ordering.{nat_cmp};
    ghost use Rattle.std.specs.Prelude.{Some};

    ghost partial_cmp = { λ x y. Some (nat_cmp x y) };

    ghost laws = { unsigned_po };

    fn partial_cmp(&self, other: &Digits) -> Option<Ordering> {
        Some(self.cmp(other))
    }
}

impl Ord for Digits {
    ghost use Rattle.std.specs.Cmp.{nat_cmp_total, unsigned_ties};
    ghost use Rattle.std.specs.Ordering.{nat_cmp};
    ghost use Rattle.std.specs.Prelude.{refl};

    ghost cmp = { nat_cmp };

    ghost total = { nat_cmp_total };

    ghost matches_partial_cmp = { λ x y. refl };

    ghost matches_eq = { unsigned_ties };

    #[inline]
    fn cmp(&self, other: &Digits) -> Ordering {
        if self.number > other.number {
            return Ordering::Greater;
        }
        if self.number == other.number {
            return Ordering::Equal;
        }
        Ordering::Less
    }
}
