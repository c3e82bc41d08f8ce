//! Storms: rigged hits drawn by random words.
ghost use Rattle.std.specs.Prelude.{◌≡◌, ◌++◌, ◌∷◌, [], ◌%◌, ◌&&◌, ◌≤◌, ◌<◌, ◌^◌, nat_lt, length, if◌then◌else◌, vec_capacity, OnErr, OnOk};
ghost use Rattle.std.specs.List.{AllByRecursion};
ghost use Rattle.action_eval.specs.Words.{seed_bytes, at_word};
ghost use Rattle.plan_gen.specs.PlanList.{most_plans, storm_kind, storm};
ghost use Rattle.action_eval.specs.RiggedScenario.{rig, most_rigs, HasLawfulText, HaveLawfulTexts};

use crate::packed::PackedSite;
use action_eval::{Argument, Kind, MOST_RIGS, Rig};
use rand_chacha::ChaCha8Rng;
use rand_core::SeedableRng;
use rand_core::utils::NextWord;
use std::alloc::AllocError;

/// The stream number of the first storm's words. The numbers from 0 on are those under which plans run.
const FIRST_STREAM: u64 = 4_294_967_296;

/// The seed as a generator takes it: its eight bytes, low byte first, and then zeros.
fn seed_bytes(seed: u64) -> [u8; 32]
    ensures { result ≡ seed_bytes seed }
{
    let mut bytes = [0; 32];
    bytes[..8].copy_from_slice(&seed.to_le_bytes());
    bytes
}

/// The generator of a stream's words, from the first on.
#[tactic(auto, unfolding(action_eval::specs::Words::at_word))]
#[inline(never)]
fn generator(seed: u64, stream: u64) -> ChaCha8Rng
    ensures { result ≡ at_word seed stream 0 }
{
    let mut generator = ChaCha8Rng::from_seed(seed_bytes(seed));
    generator.set_stream(stream);
    generator
}

/// What a word does at a site that it takes.
fn storm_kind(word: u32) -> Kind
    ensures kind { result ≡ storm_kind word }
    ensures text { HasLawfulText result }
{
    if word / 1000 % 8 == 0 {
        Kind::OncePanic
    } else {
        Kind::OnceReturn(Argument::none())
    }
}

/// Adds a site that is taken, unless the most sites are taken already.
// Few sites are taken. It is a call so that the loop over the words stays small.
#[inline(never)]
fn add_taken(rigs: &mut Vec<Rig>, word: u32, site: PackedSite)
    requires { most_rigs ≤ vec_capacity rigs.old }
    ensures drawn { rigs.new.items ≡ rigs.old.items ++ (if nat_lt (length rigs.old.items) most_rigs then rig site (storm_kind word) ∷ [] else []) }
    ensures room { vec_capacity rigs.new ≡ vec_capacity rigs.old }
    ensures few { length rigs.old.items ≤ most_rigs → length rigs.new.items ≤ most_rigs }
    ensures small { AllByRecursion (λ r. r.site.hit < 2 ^ 32) rigs.old.items → AllByRecursion (λ r. r.site.hit < 2 ^ 32) rigs.new.items }
    ensures texts { HaveLawfulTexts rigs.old.items → HaveLawfulTexts rigs.new.items }
{
    if rigs.len() < MOST_RIGS {
        rigs.push_reserved(site.rig(storm_kind(word)));
    }
}

/// Adds a site if its word takes it, unless the most sites are taken already.
#[inline(always)]
fn draw(rigs: &mut Vec<Rig>, rate: u32, word: u32, site: &PackedSite)
    requires { most_rigs ≤ vec_capacity rigs.old }
    ensures drawn { rigs.new.items ≡ rigs.old.items
        ++ (if nat_lt (word % 1000) rate && nat_lt (length rigs.old.items) most_rigs then rig site.now (storm_kind word) ∷ [] else []) }
    ensures room { vec_capacity rigs.new ≡ vec_capacity rigs.old }
    ensures few { length rigs.old.items ≤ most_rigs → length rigs.new.items ≤ most_rigs }
    ensures small { AllByRecursion (λ r. r.site.hit < 2 ^ 32) rigs.old.items → AllByRecursion (λ r. r.site.hit < 2 ^ 32) rigs.new.items }
    ensures texts { HaveLawfulTexts rigs.old.items → HaveLawfulTexts rigs.new.items }
{
    if word % 1000 < rate {
        add_taken(rigs, word, *site);
    }
}

/// Puts the rigged hits of a storm in place of what stood there. Each site takes a word, also after the most sites are taken.
///
/// An error means that memory was refused. Then the list is empty.
#[tactic(auto, unfolding(crate::specs::PlanList::storm))]
pub fn storm(
    rigs: &mut Vec<Rig>,
    seed: u64,
    rate: u32,
    sites: &[PackedSite],
    number: u32,
) -> Result<(), AllocError>
    requires { length sites.now ≤ most_plans }
    ensures rigs { OnOk result (rigs.new.items ≡ storm seed rate sites.now number) }
    ensures few { OnOk result (length rigs.new.items ≤ most_rigs) }
    ensures small { OnOk result (AllByRecursion (λ r. r.site.hit < 2 ^ 32) rigs.new.items) }
    ensures texts { OnOk result (HaveLawfulTexts rigs.new.items) }
    ensures err { OnErr result (rigs.new.items ≡ []) }
{
    rigs.clear();
    rigs.reserve(MOST_RIGS)?;
    let mut rng = generator(seed, FIRST_STREAM + u64::from(number));
    for site in sites {
        draw(rigs, rate, rng.next_word(), site);
    }
    Ok(())
}
