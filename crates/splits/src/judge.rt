ghost use Rattle.std.specs.Prelude.{◌≡◌, ℕ, Bool, List};

// Says of a case whether it is closed. It may write what is lent to it, but its judgement stays.
pub trait Judge {
    ghost closed: { Self → List ℕ → Bool };

    fn is_closed(&mut self, settings: &[u8]) -> bool
        ensures says { result ≡ closed self.old settings.now }
        ensures same { closed self.new ≡ closed self.old };
}
