//! Draws of cores.

ghost use Rattle.std.specs.Prelude.{◌≡◌, ◌<◌, length};
ghost use Rattle.tardis_core.specs.Picks.{IsPick, one_word_on};

use mem_op::CoreId;
use rand_core::utils::NextWord;
use rand_pcg::Pcg32;

/// Draws one of these cores: the generator's next word, modulo their count, is its place among them.
/// The generator moves one word on, even if there is only one core.
pub fn pick(generator: &mut Pcg32, cores: &[CoreId]) -> CoreId
    requires some { 0 < length cores.now }
    ensures core { IsPick generator.old cores.now result }
    ensures moves { generator.new ≡ one_word_on generator.old }
{
    let at = generator.next_word() as usize % cores.len();
    cores[at]
}
