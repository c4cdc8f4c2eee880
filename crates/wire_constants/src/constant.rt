//! The interface of the constants.

ghost use Rattle.std.specs.Prelude.{◌≡◌, Ok, Err};

/// A type whose values each have their own number, of type `P`. `TryFrom` returns the value with a number, or
/// an error if no value has it.
pub trait Constant<P>: TryFrom<P> + Copy {
    /// The number of a value.
    ghost number: { Self → P };

    /// Returns the value's number.
    fn to_number(self) -> P
        ensures { result ≡ number self };

    /// `TryFrom` returns the value that has the number.
    ghost takes: { (n : P) (v : Self) → Self.TryFrom.try_from_gives n (Ok v) → number v ≡ n };

    /// `TryFrom` returns an error only for a number that no value has.
    ghost fails: { (n : P) (e : Self.Error) → Self.TryFrom.try_from_gives n (Err e) → (v : Self) → number v ≡ n → ⊥ };

    /// No two values have the same number.
    ghost its_own: { (v w : Self) → number v ≡ number w → v ≡ w };
}
