ghost use Rattle.std.specs.Prelude.{◌≡◌};
ghost use Rattle.truth.specs.Kleene.{flip, meet, join, neg as not_each, conj as and_each, disj as or_each};
ghost use Rattle.truth.specs.Bit.{bit};
ghost use Rattle.truth.specs.Wide.{Place, first, means as wide_means, by_mask, yes_allowed};
ghost use Rattle.std.proofs.Common.{rules, arith};

use crate::form::TruthForm;
use crate::wide::Wide;

impl Wide {
    // Settled in every world: yes where the mask has its bit set, else no. A `From<u64>` would not say that the number is a mask.
    pub fn settled(mask: u64) -> Wide
        ensures exact { wide_means result ≡ by_mask mask }
        ensures field { result.yes ≡ mask }
    {
        Wide {
            yes: mask,
            no: !mask,
        }
    }

    // The worlds that allow yes, as a mask.
    pub fn may_be_yes(self) -> u64
        ensures exact { (w : Place) → bit result w.at ≡ yes_allowed (wide_means self w) }
        ensures field { result ≡ self.yes }
    {
        self.yes
    }
}

#[tactic(auto, using(crate::proofs::Wides::every_world, crate::proofs::Bitwise::bit_zero))]
impl TruthForm for Wide {
    ghost World = { Place };

    ghost world = { first };

    ghost means = { wide_means };

    ghost neg = { not_each };

    ghost conj = { and_each };

    ghost disj = { or_each };

    ghost neg_sound = { first_of (Prim.search rules, Prim.grind (arith, Self.row.coded.inj)) };

    ghost conj_sound = { first_of (Prim.search rules, Prim.grind (arith, Self.row.coded.inj)) };

    ghost disj_sound = { first_of (Prim.search rules, Prim.grind (arith, Self.row.coded.inj)) };

    ghost neg_settled = { first_of (Prim.search rules, Prim.grind (arith, Self.row.coded.inj)) };

    ghost conj_settled = { first_of (Prim.search rules, Prim.grind (arith, Self.row.coded.inj)) };

    ghost disj_settled = { first_of (Prim.search rules, Prim.grind (arith, Self.row.coded.inj)) };

    fn yes() -> Wide {
        Wide {
            yes: u64::MAX,
            no: 0,
        }
    }

    fn no() -> Wide {
        Wide {
            yes: 0,
            no: u64::MAX,
        }
    }

    fn open() -> Wide {
        Wide {
            yes: u64::MAX,
            no: u64::MAX,
        }
    }

    fn not(self) -> Wide
        ensures lawful { wide_means result ≡ not_each (wide_means self) }
        ensures exact { (w : Place) → wide_means result w ≡ flip (wide_means self w) }
    {
        Wide {
            yes: self.no,
            no: self.yes,
        }
    }

    fn and(self, other: Wide) -> Wide
        ensures lawful { wide_means result ≡ and_each (wide_means self) (wide_means other) }
        ensures exact { (w : Place) → wide_means result w ≡ meet (wide_means self w) (wide_means other w) }
    {
        Wide {
            yes: self.yes & other.yes,
            no: self.no | other.no,
        }
    }

    fn or(self, other: Wide) -> Wide
        ensures lawful { wide_means result ≡ or_each (wide_means self) (wide_means other) }
        ensures exact { (w : Place) → wide_means result w ≡ join (wide_means self w) (wide_means other w) }
    {
        Wide {
            yes: self.yes | other.yes,
            no: self.no & other.no,
        }
    }

    fn shut(self) -> bool {
        self.yes == 0
    }
}
