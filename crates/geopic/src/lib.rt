// The host's call, after the source's lib.rs: a stream in, positions, feature lines and warnings out.
#![tactic(auto)]

ghost use Rattle.std.specs.Prelude.{◌≡◌, List, ℕ, Float, Ok, length};
ghost use Rattle.stream.specs.Payload.{payload};
ghost use Rattle.scene.specs.Scene.{scene_of};
ghost use Rattle.values.specs.Inner.Refusals.{number_of};
ghost use Rattle.budget.specs.Budget.{allowance_of};
ghost use Rattle.strokes.specs.Inner.Space.{state_by, output_by, Applied};
ghost use Rattle.geopic.specs.Geopic.{trace_of, buffers_by, unused, refusal, acceptance, answer_of, buffers_after};
ghost use Rattle.geopic.specs.Inner.Opened.{Opens, Registers};

use budget::Budget;
use convert::convert;
use kind_table::check_table;
use projection::{Registration, projection_of};
use records::check_stream;
use register::{Survey, register, survey_stream, write_warnings};
use strokes::{Ctx, State};
use values::Refusal;

// `number` is 0, or the refusal's, with zero for everything else. Counts are whole positions, feature lines and
// warnings.
#[repr(C)]
#[derive(Clone, Copy)]
pub struct Answer {
    pub number: u32,
    pub method: u32,
    pub controls: u32,
    pub spent: u32,
    pub positions: usize,
    pub features: usize,
    pub warnings: usize,
    pub left: usize,
}

fn refuse(r: Refusal) -> Answer
    ensures { result ≡ refusal (number_of r) }
{
    Answer {
        number: r.number(),
        method: 0,
        controls: 0,
        spent: 0,
        positions: 0,
        features: 0,
        warnings: 0,
        left: 0,
    }
}

// The step with which each call of the host begins: every condition that is checked before the lent slices. `kept` gets
// the numbers of the names that are control points.
fn open_stream(s: &[u8], kinds: &[u8], kept: &mut [u32]) -> Result<(Survey, Registration), Refusal>
    requires { length kept.old ≡ 64 }
    ensures { Opens s.now kinds.now kept.new result }
{
    check_table(kinds)?;
    check_stream(s)?;
    let survey = survey_stream(s);
    let r = register(s, survey, kept)?;
    Ok((survey, r))
}

// The registration's warnings, then every item.
fn write_output(
    s: &[u8],
    kinds: &[u8],
    tier: u32,
    v: Survey,
    r: Registration,
    kept: &[u32],
    work: &mut [f64],
    positions: &mut [f64],
    features: &mut [u32],
    warnings: &mut [u32],
) -> Result<State, Refusal>
    requires { Registers s.now kinds.now v r kept.now }
    ensures { Applied (trace_of kinds.now (allowance_of tier) (scene_of (payload s.now)))
        (unused
        (buffers_by work.old positions.old features.old warnings.old))
        (output_by (length work.new) positions.new features.new warnings.new result)
        (state_by result).budget }
{
    let used = write_warnings(s, v, kept, warnings, r.controls)?;
    let st = State {
        positions: 0,
        features: 0,
        warnings: used,
        budget: Budget::new(tier),
    };
    let step = scene::step(s);
    let cx = Ctx {
        projection: projection_of(r),
        step,
        flatten: scene::flatten(s),
    };
    convert(
        s,
        kinds,
        v.places_at,
        cx,
        work,
        positions,
        features,
        warnings,
        Ok(st),
    )
}

fn accept(r: Registration, st: State) -> Answer
    ensures { (w : ℕ) (p : List Float) (f v : List ℕ)
        → result ≡ acceptance r (output_by w p f v (Ok st)) st.budget }
{
    let b = st.budget;
    Answer {
        number: 0,
        method: r.method,
        controls: r.controls,
        spent: u32::from(b.hit),
        positions: st.positions / 2,
        features: st.features / 6,
        warnings: st.warnings / 2,
        left: b.left,
    }
}

// What a stream that has been opened answers and leaves in the slices.
fn place_registered(
    s: &[u8],
    kinds: &[u8],
    tier: u32,
    v: Survey,
    r: Registration,
    kept: &[u32],
    work: &mut [f64],
    positions: &mut [f64],
    features: &mut [u32],
    warnings: &mut [u32],
) -> Answer
    requires { Registers s.now kinds.now v r kept.now }
    ensures value { result
        ≡ answer_of s.now kinds.now tier
        (buffers_by work.old positions.old features.old warnings.old) }
    ensures warnings_after { buffers_by work.new positions.new
        features.new warnings.new
        ≡ buffers_after s.now kinds.now tier
        (buffers_by work.old positions.old features.old warnings.old) }
{
    let drawn = write_output(
        s, kinds, tier, v, r, kept, work, positions, features, warnings,
    );
    work.fill(0.0);
    match drawn {
        Ok(st) => accept(r, st),
        Err(lacking) => {
            positions.fill(0.0);
            features.fill(0);
            warnings.fill(0);
            refuse(lacking)
        }
    }
}

// Places the scene of a stream on the Earth, by the host's kind table, for a panel of this tier.
pub fn geopic_place(
    s: &[u8],
    kinds: &[u8],
    tier: u32,
    work: &mut [f64],
    positions: &mut [f64],
    features: &mut [u32],
    warnings: &mut [u32],
) -> Answer
    ensures value { result
        ≡ answer_of s.now kinds.now tier
        (buffers_by work.old positions.old features.old warnings.old) }
    ensures warnings_after { buffers_by work.new positions.new
        features.new warnings.new
        ≡ buffers_after s.now kinds.now tier
        (buffers_by work.old positions.old features.old warnings.old) }
{
    let mut kept = [0u32; 64];
    match open_stream(s, kinds, &mut kept) {
        Ok((v, r)) => place_registered(
            s, kinds, tier, v, r, &kept, work, positions, features, warnings,
        ),
        Err(r) => refuse(r),
    }
}
