//! Values that only grow, and jobs that change them.
ghost use Rattle.std.specs.Prelude.{◌≡◌, ◌≢◌, ℕ};

/// A value that only grows. Each of its parts belongs to a number: the number of the seat that
/// stored it.
pub trait Grows {
    /// The first value extends the second.
    ghost extends: { Self → Self → Type 0 };
    /// Both values have the same part of the number.
    ghost same: { ℕ → Self → Self → Type 0 };
    /// The value has no part of the number.
    ghost blank: { ℕ → Self → Type 0 };

    /// `extends` is reflexive.
    ghost extends_refl: { (a : Self) → extends a a };

    /// `extends` is transitive.
    ghost extends_trans: { (a b c : Self) → extends c b → extends b a → extends c a };

    /// `same` is reflexive.
    ghost same_refl: { (n : ℕ) (a : Self) → same n a a };

    /// `same` is transitive.
    ghost same_trans: { (n : ℕ) (a b c : Self) → same n a b → same n b c → same n a c };

    /// Two values without a part of a number have the same part of it.
    ghost same_of_blank: { (n : ℕ) (a b : Self) → blank n a → blank n b → same n a b };

    /// A value with the same part as one without a part has none.
    ghost blank_of_same: { (n : ℕ) (a b : Self) → same n a b → blank n a → blank n b };
}

/// A closure that runs once with the value, under the lock.
pub trait Job<T: Grows> {
    type Answer;

    /// The precondition: the job may run under this number on this value.
    ghost precondition: { Self → ℕ → T → Type 0 };
    /// The postcondition, of the job, the number, the value before, the value after and the answer.
    ghost postcondition: { Self → ℕ → T → T → Self.Answer → Type 0 };

    /// Changes the value to one that extends it, without changing parts of other numbers.
    fn run(self, number: u64, value: &mut T) -> Self::Answer
        requires { precondition self number value.old }
        ensures extends { T.extends value.new value.old }
        ensures others_unchanged { (k : ℕ) → k ≢ number → T.same k value.old value.new }
        ensures postcondition { postcondition self number value.old value.new result };
}
