//! The generator of the values of a script.

ghost use Rattle.std.specs.Prelude.{◌≡◌, ◌^◌, ◌<◌};
ghost use Rattle.qe_make.specs.Generator.{next_state, drawn};

/// Knuth's multiplier and increment for MMIX.
const MULTIPLIER: u64 = 6_364_136_223_846_793_005;

const INCREMENT: u64 = 1_442_695_040_888_963_407;

/// The next number, of 31 bits, which moves the state on.
#[tactic(auto, using(crate::proofs::GeneratorLemmas::wrapped_step), unfolding(crate::specs::Generator::next_state, crate::specs::Generator::drawn))]
pub fn draw(state: &mut u64) -> u32
    ensures value { result ≡ drawn state.old }
    ensures next { state.new ≡ next_state state.old }
    ensures bound { result < 2 ^ 31 }
{
    *state = state.wrapping_mul(MULTIPLIER).wrapping_add(INCREMENT);
    (*state >> 33) as u32
}
