//! The random words of a run, taken in order.
ghost use Rattle.std.specs.Prelude.{◌≡◌, ◌+◌, ◌<◌, ◌^◌};
ghost use Rattle.action_eval.specs.Words.{seed_bytes, at_word, word};

use rand_chacha::ChaCha8Rng;
use rand_core::SeedableRng;
use rand_core::utils::NextWord;
use std::alloc::Global;
use std::marker::Model;

/// The seed as a generator takes it: its eight bytes, low byte first, and then zeros.
fn seed_bytes(seed: u64) -> [u8; 32]
    ensures { result ≡ seed_bytes seed }
{
    let mut bytes = [0; 32];
    bytes[..8].copy_from_slice(&seed.to_le_bytes());
    bytes
}

/// A run's generator, which gives the word with this number next.
#[tactic(auto, unfolding(crate::specs::Words::at_word))]
#[inline(never)]
fn generator_at(seed: u64, stream: u64, number: u64) -> ChaCha8Rng
    ensures { result ≡ at_word seed stream number }
{
    let mut generator = ChaCha8Rng::from_seed(seed_bytes(seed));
    generator.set_stream(stream);
    generator.set_word_pos(u128::from(number));
    generator
}

/// The most words that a generator is made to pass over: for more, a new generator costs less.
const FEW_WORDS: u64 = 64;

/// Passes over this many words.
fn pass_over(generator: &mut ChaCha8Rng, words: u64)
    requires { generator.old.word_pos + words < 2 ^ 68 }
    ensures { generator.new ≡ record generator.old { word_pos = generator.old.word_pos + words } }
{
    for _ in 0..words {
        generator.next_word();
    }
}

/// The random words of a run. Most runs look at none, so the generator is made for the first word that is looked at. It has memory of its own,
/// because it is larger than everything else in a session.
#[derive(Drop)]
pub struct Draws {
    alloc: Global,
    seed: u64,
    stream: u64,
    taken: u64,
    /// The number of the word that the generator gives next. It may lag behind, because words at which nobody looks aren't made.
    at: u64,
    generator: Option<Box<ChaCha8Rng>>,
}

impl Model for Draws {
    ghost use Rattle.std.specs.Prelude.{◌≡◌, ◌≤◌};
    ghost use Rattle.std.specs.Option.{ForSome};
    ghost use Rattle.action_eval.specs.Words.{Drawn, at_word};

    ghost Value = { Drawn };

    ghost view = { λ d. record {
      seed = d.seed;
      stream = d.stream;
      taken = d.taken;
    } };

    ghost invariant = { λ d. (d.at ≤ d.taken) × ForSome d.generator (λ g. g.value ≡ at_word d.seed d.stream d.at) };
}

impl Draws {
    /// The words of this seed and stream, none of which is taken.
    pub fn new(alloc: Global, seed: u64, stream: u64) -> Self
        ensures { result ≡ record { seed = seed; stream = stream; taken = 0 } }
    {
        Draws {
            alloc,
            seed,
            stream,
            taken: 0,
            at: 0,
            generator: None,
        }
    }

    /// How many words were taken.
    pub fn taken(&self) -> u64
        ensures { result ≡ self.now.taken }
    {
        self.taken
    }

    /// Takes this many words, at which nobody looks.
    pub fn skip(&mut self, words: u64)
        requires { self.old.taken + words < 2 ^ 64 }
        ensures { self.new ≡ record self.old { taken = self.old.taken + words } }
    {
        self.taken += words;
    }

    /// Takes the next word. If memory for the generator is refused, the generator isn't kept: the next word makes one of its own, which gives the
    /// same.
    #[tactic(auto, unfolding(crate::specs::Words::at_word, crate::specs::Words::word))]
    #[inline(never)]
    pub fn take(&mut self) -> u32
        requires { self.old.taken + 1 < 2 ^ 64 }
        ensures value { result ≡ word self.old.seed self.old.stream self.old.taken }
        ensures moved { self.new ≡ record self.old { taken = self.old.taken + 1 } }
    {
        if self.taken - self.at > FEW_WORDS {
            self.generator = None;
        }
        let word = match &mut self.generator {
            Some(generator) => {
                pass_over(generator, self.taken - self.at);
                generator.next_word()
            }
            None => {
                let mut generator = generator_at(self.seed, self.stream, self.taken);
                let word = generator.next_word();
                self.generator = Box::new(self.alloc, generator).ok();
                word
            }
        };
        self.taken += 1;
        self.at = self.taken;
        word
    }

    /// Gives back the words from this number on, so that the next word has this number.
    pub fn go_back(&mut self, taken: u64)
        ensures { self.new ≡ record self.old { taken = taken } }
    {
        self.taken = taken;
        self.at = taken;
        self.generator = None;
    }
}
