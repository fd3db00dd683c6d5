// Numbers in turn, at most so many.
ghost use Rattle.std.specs.Prelude.{◌≡◌, ◌≤◌, ◌<◌, [], ◌∷◌, ◌++◌, length};

use std::marker::Model;

// The numbers stand at the first `count` places, and 0 behind them: so they tell each field, and are copied as the fields are.
#[derive(Clone, Copy)]
pub struct Numbers<const N: usize> {
    places: [usize; N],
    count: usize,
}

// Clauses see the numbers.
impl<const N: usize> Model for Numbers<N> {
    ghost use Rattle.std.specs.Prelude.{◌≡◌, ℕ, ◌-◌, ◌≤◌, List, ◌++◌, length, take, drop, replicate};
    ghost use Rattle.std.proofs.Common.{◌∙◌, ap, subst, sym, take-append-drop, length-take-le};

    ghost Value = { List ℕ };

    ghost view = { λ s. take s.count s.places };

    ghost invariant = { λ s. (s.count ≤ N) × (length s.places ≡ N) × (drop s.count s.places ≡ replicate (N - s.count) 0) };

    ghost inverse = { λ numbers. record { places = numbers ++ replicate (N - length numbers) 0; count = length numbers } };

    ghost inverse_ok = { λ s h i.
        let counted : length (take s.count s.places) ≡ s.count = length-take-le s.count s.places (subst (λ (n : ℕ). s.count ≤ n) (sym h.1) h.0) in
        record {
          places = (ap (λ (k : ℕ). take s.count s.places ++ replicate (N - k) 0) counted ∙ ap (λ (l : List ℕ). take s.count s.places ++ l) (sym h.2) ∙ take-append-drop s.count s.places) i;
          count = counted i;
        } };
}

impl<const N: usize> Numbers<N> {
    // None yet.
    pub fn new() -> Self
        ensures { result ≡ [] }
    {
        Numbers {
            places: [0; N],
            count: 0,
        }
    }

    // Those of a slice.
    pub fn of(numbers: &[usize]) -> Self
        requires { length numbers.now ≤ N }
        ensures { result ≡ numbers.now }
    {
        let count = numbers.len();
        let mut places = [0; N];
        places[..count].copy_from_slice(numbers);
        Numbers { places, count }
    }

    // One more, the last.
    pub fn push(&mut self, number: usize)
        requires { length self.old < N }
        ensures { self.new ≡ self.old ++ number ∷ [] }
    {
        self.places[self.count] = number;
        self.count += 1;
    }

    // As a slice.
    pub fn as_slice(&self) -> &[usize]
        ensures { (result.now ≡ self.now) × (length result.now ≤ N) }
    {
        &self.places[..self.count]
    }
}
