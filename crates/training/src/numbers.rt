// The numbers of marks, updates and states, and of three updates or states together, both ways.
ghost use Rattle.std.specs.Prelude.{◌≡◌, ℕ, ◌<◌, Result, MatchResult};
ghost use Rattle.training.specs.Numbers.{mark_number, update_number, state_number, coefficients_number, Names, Named};
ghost use Rattle.training.specs.Making.{CoefficientsFrom};
ghost use Rattle.training.specs.Fitting.{update_below, state_below};
ghost use Rattle.training.specs.declared.refusals.UnknownNumber.{UnknownNumber};

use crate::records::{Coefficients, Mark, State, Update};
use crate::refusals::UnknownNumber;

impl From<Mark> for u8 {
    ghost from_gives = { λ m n. n ≡ mark_number m };

    fn from(mark: Mark) -> u8 {
        mark as u8
    }
}

impl TryFrom<u8> for Mark {
    type Error = UnknownNumber;

    ghost try_from_gives = { Names mark_number };

    fn try_from(number: u8) -> Result<Mark, UnknownNumber> {
        match number {
            0 => Ok(Mark::Gfc16),
            3 => Ok(Mark::Gfc32),
            _ => Err(UnknownNumber),
        }
    }
}

impl From<Update> for u8 {
    ghost from_gives = { λ u n. n ≡ update_number u };

    fn from(update: Update) -> u8 {
        update as u8
    }
}

impl TryFrom<u8> for Update {
    type Error = UnknownNumber;

    ghost try_from_gives = { Names update_number };

    fn try_from(number: u8) -> Result<Update, UnknownNumber> {
        match number {
            0 => Ok(Update::Hold),
            1 => Ok(Update::Increment),
            2 => Ok(Update::Decrement),
            _ => Err(UnknownNumber),
        }
    }
}

impl From<State> for u8 {
    ghost from_gives = { λ s n. n ≡ state_number s };

    fn from(state: State) -> u8 {
        state as u8
    }
}

impl TryFrom<u8> for State {
    type Error = UnknownNumber;

    ghost try_from_gives = { Names state_number };

    fn try_from(number: u8) -> Result<State, UnknownNumber> {
        match number {
            0 => Ok(State::Ready),
            1 => Ok(State::Updated),
            2 => Ok(State::Minimum),
            3 => Ok(State::Maximum),
            _ => Err(UnknownNumber),
        }
    }
}

// What a field says of one coefficient in two bits: an update or a state, by its number.
pub trait TwoBits: Copy + Into<u8> + TryFrom<u8, Error = UnknownNumber> {
    ghost number: { Self → ℕ };

    ghost fits: { (x : Self) → number x < 4 };

    ghost into_number: { (x : Self) (n : ℕ) → Self.converts x n → n ≡ number x };

    ghost from_number: { (n : ℕ) (r : Result Self UnknownNumber) → Self.try_from_gives n r → Names number n r };
}

impl TwoBits for Update {
    ghost number = { update_number };

    ghost fits = { update_below };

    ghost into_number = { λ x n e. e };

    ghost from_number = { λ n r e. e };
}

impl TwoBits for State {
    ghost number = { state_number };

    ghost fits = { state_below };

    ghost into_number = { λ x n e. e };

    ghost from_number = { λ n r e. e };
}

impl<T: TwoBits> Coefficients<T> {
    // The values with these three numbers.
    pub(crate) fn from_numbers(c1: u8, c0: u8, cm1: u8) -> Result<Coefficients<T>, UnknownNumber>
        ensures { MatchResult result (CoefficientsFrom T.number c1 c0 cm1) (λ e. Named T.number c1 × Named T.number c0 × Named T.number cm1 → ⊥) }
    {
        Ok(Coefficients {
            c1: T::try_from(c1)?,
            c0: T::try_from(c0)?,
            cm1: T::try_from(cm1)?,
        })
    }
}

// Six bits: two for each coefficient.
impl<T: TwoBits> From<Coefficients<T>> for u8 {
    ghost from_gives = { λ k n. n ≡ coefficients_number T.number k };

    fn from(coefficients: Coefficients<T>) -> u8 {
        let c1: u8 = coefficients.c1.into();
        let c0: u8 = coefficients.c0.into();
        let cm1: u8 = coefficients.cm1.into();
        (c1 << 4) + (c0 << 2) + cm1
    }
}

impl<T: TwoBits> TryFrom<u8> for Coefficients<T> {
    type Error = UnknownNumber;

    ghost try_from_gives = { Names (coefficients_number T.number) };

    fn try_from(number: u8) -> Result<Coefficients<T>, UnknownNumber> {
        Coefficients::from_numbers(number / 16, number / 4 % 4, number % 4)
    }
}
