//! Flicks and picks: the value of an overlapped read, and the process that makes the next step.
#![tactic(auto)]

ghost use Rattle.std.specs.Prelude.{◌≡◌};
ghost use Rattle.choices.specs.Flicks.{constant_flicks, pcg_flicks, after_set, flick_of, after_flick, flicks_after, is_constant, pick_of, after_pick, picks_after};

mod divisor;

pub use divisor::Divisor;
use rand_core::SeedableRng;
use rand_core::utils::NextWord;
use rand_pcg::Lcg64Xsh32;
use std::marker::Model;

/// The source of later flicks.
#[derive(Clone, Copy)]
pub enum Flick {
    /// Each is 0.
    Zero,
    /// Each is 1.
    One,
    /// Each is the lowest bit of a word of the generator, made anew from this seed.
    Pcg(u64),
}

/// The source of the next flick.
#[derive(Clone, Copy)]
enum Mode {
    /// This bit.
    Constant(bool),
    /// The lowest bit of the generator's next word.
    Generator,
}

/// One generator of words, and a mode. A flick is a constant bit or from a word, by the mode; a pick is from a
/// word in each mode.
#[derive(Drop)]
pub struct Flicks {
    mode: Mode,
    generator: Lcg64Xsh32,
}

impl Model for Flicks {
    ghost use Rattle.choices.specs.Flicks.{FlickState};

    ghost Value = { FlickState };

    ghost view = { λ f. record { mode = f.mode; generator = f.generator } };
}

impl Flicks {
    /// Creates flicks that are all `bit`, with the generator of seed 0 for the picks.
    pub fn constant(bit: bool) -> Self
        ensures { result ≡ constant_flicks bit }
    {
        Flicks {
            mode: Mode::Constant(bit),
            generator: Lcg64Xsh32::seed_from_u64(0),
        }
    }

    /// Creates a source of one flick, `bit`, for a caller that draws no other flick and no pick. It costs nothing.
    #[inline(always)]
    pub fn only(bit: bool) -> Self
        ensures { flick_of result ≡ bit }
    {
        Flicks {
            mode: Mode::Constant(bit),
            generator: Lcg64Xsh32::from_state(0, 0),
        }
    }

    /// Creates flicks and picks from the words of the generator of `seed`.
    pub fn pcg(seed: u64) -> Self
        ensures { result ≡ pcg_flicks seed }
    {
        Flicks {
            mode: Mode::Generator,
            generator: Lcg64Xsh32::seed_from_u64(seed),
        }
    }

    /// Returns a copy of this source, from which flicks can be drawn ahead of time.
    #[inline]
    pub fn twin(&self) -> Self
        ensures { result ≡ self.now }
    {
        let Ok(generator) = self.generator.clone() else {
            unreachable!()
        };
        Flicks {
            mode: self.mode,
            generator,
        }
    }

    /// Sets the source of later flicks. A constant leaves the generator; a seed makes it anew.
    pub fn set(&mut self, flick: Flick)
        ensures { self.new ≡ after_set flick self.old }
    {
        match flick {
            Flick::Zero => self.mode = Mode::Constant(false),
            Flick::One => self.mode = Mode::Constant(true),
            Flick::Pcg(seed) => *self = Flicks::pcg(seed),
        }
    }

    /// Returns the flick of one step. It takes a word unless the flicks are constant.
    #[inline]
    pub fn flick(&mut self) -> bool
        ensures flick { result ≡ flick_of self.old }
        ensures after { self.new ≡ after_flick self.old }
    {
        match self.mode {
            Mode::Constant(bit) => bit,
            Mode::Generator => self.generator.next_word() % 2 == 1,
        }
    }

    /// Returns an index below `k`: the next word modulo `k`. It takes the word, whatever the mode.
    #[inline]
    pub fn pick(&mut self, k: &Divisor) -> usize
        ensures index { result ≡ pick_of k.now self.old }
        ensures after { self.new ≡ after_pick self.old }
    {
        k.remainder(self.generator.next_word()) as usize
    }

    /// Passes over `steps` flicks. The time that it takes grows only with the number of digits of `steps`.
    #[inline]
    pub fn skip(&mut self, steps: u32)
        ensures { self.new ≡ flicks_after steps self.old }
    {
        match self.mode {
            Mode::Constant(_) => {}
            Mode::Generator => self.generator.advance(steps as u64),
        }
    }

    /// Returns whether each flick is the same bit, and takes no word.
    #[inline]
    pub fn is_constant(&self) -> bool
        ensures { result ≡ is_constant self.now }
    {
        matches!(self.mode, Mode::Constant(_))
    }

    /// Passes over `picks` picks, whatever the mode. The time that it takes grows only with the number of digits of `picks`.
    #[inline]
    pub fn skip_picks(&mut self, picks: u32)
        ensures { self.new ≡ picks_after picks self.old }
    {
        self.generator.advance(picks as u64);
    }
}
