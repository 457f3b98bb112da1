// The host's call as a C symbol.
#![tactic(auto)]

ghost use Rattle.std.specs.Prelude.{◌≡◌};
ghost use Rattle.geopic.specs.Geopic.{buffers_by, answer_of, buffers_after};

use geopic::Answer;

// `geopic_place` of the library.
#[unsafe(no_mangle)]
pub extern "C" fn geopic_place(
    s: &[u8],
    kinds: &[u8],
    tier: u32,
    work: &mut [f64],
    positions: &mut [f64],
    features: &mut [u32],
    warnings: &mut [u32],
) -> Answer
    ensures value { result
        ≡ answer_of s.now kinds.now tier
        (buffers_by work.old positions.old features.old warnings.old) }
    ensures warnings_after { buffers_by work.new positions.new
        features.new warnings.new
        ≡ buffers_after s.now kinds.now tier
        (buffers_by work.old positions.old features.old warnings.old) }
{
    geopic::geopic_place(s, kinds, tier, work, positions, features, warnings)
}
