ghost use Rattle.std.specs.Prelude.{◌≡◌, true};
ghost use Rattle.truth.specs.Forms.{only_yes, only_no, both};
ghost use Rattle.truth.specs.Kleene.{neg as not_each, conj as and_each, disj as or_each};
ghost use Rattle.truth.specs.Three.{Only, here, means as three_means, answer as answer_of, is_no, three_not, three_and, three_or};
ghost use Rattle.std.proofs.Common.{rules};

use crate::form::TruthForm;

// A truth value of one world.
#[derive(Clone, Copy)]
pub enum Three {
    Yes,
    No,
    Open,
}

impl TruthForm for Three {
    ghost World = { Only };

    ghost world = { here };

    ghost means = { three_means };

    ghost neg = { not_each };

    ghost conj = { and_each };

    ghost disj = { or_each };

    ghost neg_sound = { Prim.search rules };

    ghost conj_sound = { Prim.search rules };

    ghost disj_sound = { Prim.search rules };

    ghost neg_settled = { Prim.search rules };

    ghost conj_settled = { Prim.search rules };

    ghost disj_settled = { Prim.search rules };

    fn yes() -> Three
        ensures lawful { (w : Only) → three_means result w ≡ only_yes }
        ensures exact { result ≡ Three.Yes }
    {
        Three::Yes
    }

    fn no() -> Three
        ensures lawful { (w : Only) → three_means result w ≡ only_no }
        ensures exact { result ≡ Three.No }
    {
        Three::No
    }

    fn open() -> Three
        ensures lawful { (w : Only) → three_means result w ≡ both }
        ensures exact { result ≡ Three.Open }
    {
        Three::Open
    }

    fn not(self) -> Three
        ensures lawful { three_means result ≡ not_each (three_means self) }
        ensures exact { result ≡ three_not self }
    {
        match self {
            Three::Yes => Three::No,
            Three::No => Three::Yes,
            Three::Open => Three::Open,
        }
    }

    fn and(self, other: Three) -> Three
        ensures lawful { three_means result ≡ and_each (three_means self) (three_means other) }
        ensures exact { result ≡ three_and self other }
    {
        match (self, other) {
            (Three::No, _) => Three::No,
            (_, Three::No) => Three::No,
            (Three::Yes, Three::Yes) => Three::Yes,
            _ => Three::Open,
        }
    }

    // A table of its own, which reads plainer than `and` between two turns.
    fn or(self, other: Three) -> Three
        ensures lawful { three_means result ≡ or_each (three_means self) (three_means other) }
        ensures exact { result ≡ three_or self other }
    {
        match (self, other) {
            (Three::Yes, _) => Three::Yes,
            (_, Three::Yes) => Three::Yes,
            (Three::No, Three::No) => Three::No,
            _ => Three::Open,
        }
    }

    fn shut(self) -> bool
        ensures sound { result ≡ true → (w : Only) → three_means self w ≡ only_no }
        ensures complete { ((w : Only) → three_means self w ≡ only_no) → result ≡ true }
        ensures exact { result ≡ is_no self }
    {
        matches!(self, Three::No)
    }
}

// The answer to a question that is settled.
impl From<bool> for Three {
    ghost from_gives = { λ answer v. v ≡ answer_of answer };

    fn from(answer: bool) -> Three {
        if answer { Three::Yes } else { Three::No }
    }
}
