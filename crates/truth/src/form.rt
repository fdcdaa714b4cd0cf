ghost use Rattle.std.specs.Prelude.{◌≡◌, true, not, ◌&&◌, ◌||◌};
ghost use Rattle.truth.specs.Forms.{only_yes, only_no, both, Meaning, Sound₁, Sound₂, Settles₁, Settles₂, Laws, SettlesByWorld};
ghost use Rattle.truth.specs.Kleene.{neg as not_each, conj as and_each, disj as or_each};

// A type of truth values. Its operations are known by what they do to meanings, so what a
// result allows depends only on what its operands allow. Nothing is asked of the representation.
pub trait TruthForm: Copy {
    ghost World: { Type 0 };

    // There is at least one world.
    ghost world: { World };

    // The answers that a value allows in each world.
    ghost means: { Self → Meaning World };

    ghost neg: { Meaning World → Meaning World };

    ghost conj: { Meaning World → Meaning World → Meaning World };

    ghost disj: { Meaning World → Meaning World → Meaning World };

    fn yes() -> Self
        ensures { (w : World) → means result w ≡ only_yes };

    fn no() -> Self
        ensures { (w : World) → means result w ≡ only_no };

    fn open() -> Self
        ensures { (w : World) → means result w ≡ both };

    fn not(self) -> Self
        ensures { means result ≡ neg (means self) };

    fn and(self, other: Self) -> Self
        ensures { means result ≡ conj (means self) (means other) };

    fn or(self, other: Self) -> Self
        ensures { means result ≡ disj (means self) (means other) };

    // Whether only no is allowed in every world.
    fn shut(self) -> bool
        ensures sound { result ≡ true → (w : World) → means self w ≡ only_no }
        ensures complete { ((w : World) → means self w ≡ only_no) → result ≡ true };

    ghost neg_sound: { Sound₁ not neg };

    ghost conj_sound: { Sound₂ ◌&&◌ conj };

    ghost disj_sound: { Sound₂ ◌||◌ disj };

    ghost neg_settled: { Settles₁ neg };

    ghost conj_settled: { Settles₂ conj };

    ghost disj_settled: { Settles₂ disj };
}

// The laws of a form, as one record for proofs about code that is generic over it.
pub fn laws_stand<T: TruthForm>()
    ensures { Laws T.neg T.conj T.disj }
{}

// Kleene's operations, which the three-way and the wide form have, settle in each world by itself.
pub fn settles_by_world<T: TruthForm>()
    ensures { SettlesByWorld {World = T.World} not_each and_each or_each }
{}
