// The functions of float, root and elementary as C symbols, for the comparison and the benchmark.
ghost use Rattle.std.specs.Prelude.{◌≡◌};
ghost use Rattle.std.specs.Float.Ieee.Scale.{finite};
ghost use Rattle.float.specs.Functions.{abs_of, trunc_of, ceil_of, round_of, rem_euclid360_of, max_of, min_of};
ghost use Rattle.root.specs.Root.{root_of};
ghost use Rattle.root.specs.Digits.{digits_of};
ghost use Rattle.elementary.specs.Functions.{sin_of, cos_of, tan_of, ln_of, exp_of, atan_of, acos_of, to_radians_of, to_degrees_of, hypot_of, atan2_of};

use root::RootDigits;

#[unsafe(no_mangle)]
pub extern "C" fn leaf_abs(x: f64) -> f64
    ensures { result ≡ abs_of x }
{
    float::abs(x)
}

#[unsafe(no_mangle)]
pub extern "C" fn leaf_trunc(x: f64) -> f64
    ensures { result ≡ trunc_of x }
{
    float::trunc(x)
}

#[unsafe(no_mangle)]
pub extern "C" fn leaf_ceil(x: f64) -> f64
    ensures { result ≡ ceil_of x }
{
    float::ceil(x)
}

#[unsafe(no_mangle)]
pub extern "C" fn leaf_round(x: f64) -> f64
    ensures { result ≡ round_of x }
{
    float::round(x)
}

#[unsafe(no_mangle)]
pub extern "C" fn leaf_rem_euclid_360(x: f64) -> f64
    ensures { result ≡ rem_euclid360_of x }
{
    float::rem_euclid_360(x)
}

#[unsafe(no_mangle)]
pub extern "C" fn leaf_root(x: f64) -> f64
    ensures { result ≡ root_of x }
{
    root::root(x)
}

#[unsafe(no_mangle)]
pub extern "C" fn leaf_root_digits(x: f64) -> RootDigits
    ensures { (result.root ≡ root_of x) × (result.digits ≡ digits_of x) }
{
    root::root_digits(x)
}

#[unsafe(no_mangle)]
pub extern "C" fn leaf_sin(x: f64) -> f64
    ensures { result ≡ sin_of x }
{
    elementary::sin(x)
}

#[unsafe(no_mangle)]
pub extern "C" fn leaf_cos(x: f64) -> f64
    ensures { result ≡ cos_of x }
{
    elementary::cos(x)
}

#[unsafe(no_mangle)]
pub extern "C" fn leaf_tan(x: f64) -> f64
    ensures { result ≡ tan_of x }
{
    elementary::tan(x)
}

#[unsafe(no_mangle)]
pub extern "C" fn leaf_ln(x: f64) -> f64
    ensures { result ≡ ln_of x }
{
    elementary::ln(x)
}

#[unsafe(no_mangle)]
pub extern "C" fn leaf_exp(x: f64) -> f64
    ensures { result ≡ exp_of x }
{
    elementary::exp(x)
}

#[unsafe(no_mangle)]
pub extern "C" fn leaf_atan(x: f64) -> f64
    ensures { result ≡ atan_of x }
{
    elementary::atan(x)
}

#[unsafe(no_mangle)]
pub extern "C" fn leaf_acos(x: f64) -> f64
    ensures { result ≡ acos_of x }
{
    elementary::acos(x)
}

#[unsafe(no_mangle)]
pub extern "C" fn leaf_to_radians(x: f64) -> f64
    ensures { result ≡ to_radians_of x }
{
    elementary::to_radians(x)
}

#[unsafe(no_mangle)]
pub extern "C" fn leaf_to_degrees(x: f64) -> f64
    ensures { result ≡ to_degrees_of x }
{
    elementary::to_degrees(x)
}

#[unsafe(no_mangle)]
pub extern "C" fn leaf_max(x: f64, y: f64) -> f64
    ensures { result ≡ max_of x y }
{
    float::max(x, y)
}

#[unsafe(no_mangle)]
pub extern "C" fn leaf_min(x: f64, y: f64) -> f64
    ensures { result ≡ min_of x y }
{
    float::min(x, y)
}

#[unsafe(no_mangle)]
pub extern "C" fn leaf_hypot(x: f64, y: f64) -> f64
    ensures { result ≡ hypot_of x y }
{
    elementary::hypot(x, y)
}

#[unsafe(no_mangle)]
pub extern "C" fn leaf_atan2(y: f64, x: f64) -> f64
    ensures { result ≡ atan2_of y x }
{
    elementary::atan2(y, x)
}

#[unsafe(no_mangle)]
pub extern "C" fn leaf_is_finite(x: f64) -> bool
    ensures { result ≡ finite x }
{
    float::is_finite(x)
}
