// The elementary functions of document 01, for every f64.
#![tactic(auto)]

ghost use Rattle.std.specs.Prelude.{◌≡◌, T, map, [], ◌∷◌};
ghost use Rattle.std.specs.Float.Ieee.Positive.{positive};
ghost use Rattle.elementary.specs.Series.{series_of, even_of, odd_of, sine_table, cosine_table, logarithm_table, exponential_table, arctangent_table};
ghost use Rattle.elementary.specs.Inner.Stages.{atan_first, atan_second, quadrupled, atan_third};
ghost use Rattle.elementary.specs.Functions.{to_radians_of, to_degrees_of, hypot_of, rem_tau_of, quadrant_of, rest_of, sine_at, cosine_at, sin_of, cos_of, tan_of, ln_at, ln_of, two_to, exp_of, half_angle_of, atan_small, atan_nonneg, atan_of, angle_of, half_plane_of, atan2_of, acos_of};
ghost use Rattle.elementary.specs.Inner.Powers.{Small};

use std::f64::consts::{FRAC_PI_2, LN_2, PI, TAU};

// The largest argument of the exponential, and with a minus sign the least: others are clamped to these.
const EXP_LIMIT: f64 = 700.0;

// The last digit of the exponent's field, in a pattern.
const TWO_52: u64 = 0x0010_0000_0000_0000;

// The pattern of 0.5. Added to a significand of 53 digits, whose leading one adds 1 to the exponent's field, it makes
// the pattern of a value from 1 up to 2.
const HALF: u64 = 0x3fe0_0000_0000_0000;

// The exponent's field of 1.0.
const BIAS: f64 = 1023.0;

// The e that `float::decompose` gives for a value from 1 up to 2: m * 2^e is in units of 2^-2150, and
// m from 2^52 up to 2^53.
const EXPONENT_OF_ONE: f64 = 2098.0;

// 1/21!, -1/19!, .., 1
const SINE: [f64; 11] = [
    1.9572941063391263e-20,
    -8.22063524662433e-18,
    2.8114572543455206e-15,
    -7.647163731819816e-13,
    1.6059043836821613e-10,
    -2.505210838544172e-08,
    2.7557319223985893e-06,
    -0.0001984126984126984,
    0.008333333333333333,
    -0.16666666666666666,
    1.0,
];

// 1/20!, -1/18!, .., 1
const COSINE: [f64; 11] = [
    4.110317623312165e-19,
    -1.5619206968586225e-16,
    4.779477332387385e-14,
    -1.1470745597729725e-11,
    2.08767569878681e-09,
    -2.755731922398589e-07,
    2.48015873015873e-05,
    -0.001388888888888889,
    0.041666666666666664,
    -0.5,
    1.0,
];

// 1/33, 1/31, .., 1
const LOGARITHM: [f64; 17] = [
    0.030303030303030304,
    0.03225806451612903,
    0.034482758620689655,
    0.037037037037037035,
    0.04,
    0.043478260869565216,
    0.047619047619047616,
    0.05263157894736842,
    0.058823529411764705,
    0.06666666666666667,
    0.07692307692307693,
    0.09090909090909091,
    0.1111111111111111,
    0.14285714285714285,
    0.2,
    0.3333333333333333,
    1.0,
];

// 1/18!, 1/17!, .., 1
const EXPONENTIAL: [f64; 19] = [
    1.5619206968586225e-16,
    2.8114572543455206e-15,
    4.779477332387385e-14,
    7.647163731819816e-13,
    1.1470745597729725e-11,
    1.6059043836821613e-10,
    2.08767569878681e-09,
    2.505210838544172e-08,
    2.755731922398589e-07,
    2.7557319223985893e-06,
    2.48015873015873e-05,
    0.0001984126984126984,
    0.001388888888888889,
    0.008333333333333333,
    0.041666666666666664,
    0.16666666666666666,
    0.5,
    1.0,
    1.0,
];

// -1/23, 1/21, .., 1
const ARCTANGENT: [f64; 12] = [
    -0.043478260869565216,
    0.047619047619047616,
    -0.05263157894736842,
    0.058823529411764705,
    -0.06666666666666667,
    0.07692307692307693,
    -0.09090909090909091,
    0.1111111111111111,
    -0.14285714285714285,
    0.2,
    -0.3333333333333333,
    1.0,
];

// A series by Horner, from the highest term, at N values side by side: a term waits for the one before it, and not for
// the other values.
fn series<const N: usize>(t: &[f64], v: [f64; N]) -> [f64; N]
    ensures { result ≡ map (series_of t.now) v.entry }
{
    let Some((first, rest)) = t.split_first() else {
        return [0.0; N];
    };
    let mut acc = [*first; N];
    for c in rest {
        for k in 0..N {
            acc[k] = acc[k] * v[k] + *c;
        }
    }
    acc
}

fn sine_series(u: f64) -> f64
    ensures { result ≡ odd_of sine_table u }
{
    let t = SINE;
    let [s] = series(&t, [u * u]);
    s * u
}

fn cosine_series(u: f64) -> f64
    ensures { result ≡ even_of cosine_table u }
{
    let t = COSINE;
    let [s] = series(&t, [u * u]);
    s
}

fn logarithm_series(s: f64) -> f64
    ensures { result ≡ odd_of logarithm_table s }
{
    let t = LOGARITHM;
    let [r] = series(&t, [s * s]);
    r * s
}

fn exponential_series<const N: usize>(u: [f64; N]) -> [f64; N]
    ensures { result ≡ map (series_of exponential_table) u.entry }
{
    let t = EXPONENTIAL;
    series(&t, u)
}

fn arctangent_series(v: f64) -> f64
    ensures { result ≡ odd_of arctangent_table v }
{
    let t = ARCTANGENT;
    let [s] = series(&t, [v * v]);
    s * v
}

pub fn to_radians(x: f64) -> f64
    ensures { result ≡ to_radians_of x }
{
    x.to_radians()
}

pub fn to_degrees(x: f64) -> f64
    ensures { result ≡ to_degrees_of x }
{
    x.to_degrees()
}

pub fn hypot(x: f64, y: f64) -> f64
    ensures { result ≡ hypot_of x y }
{
    root::root(x * x + y * y)
}

// A quadrant, 0.0 to 3.0, and the angle that is left in it. The quadrant stays the float that took it off: an enum
// would be made by the same tests.
#[derive(Clone, Copy)]
struct Reduced {
    q: f64,
    u: f64,
}

// The quadrant of |t|, and the angle in it. A remainder just below TAU can have the quotient 4, so 3 is the most.
fn reduce(t: f64) -> Reduced
    ensures { (result.q ≡ quadrant_of (rem_tau_of t)) × (result.u ≡ rest_of (rem_tau_of t)) }
{
    let r = float::abs(t) % TAU;
    let q = float::min(float::trunc(r / FRAC_PI_2), 3.0);
    Reduced {
        q,
        u: r - q * FRAC_PI_2,
    }
}

// Apart from `cosine_at`: its quarters follow in another order, and a table of both would be no plainer.
fn sine_at(q: f64, u: f64) -> f64
    ensures { result ≡ sine_at q u }
{
    if q == 0.0 {
        return sine_series(u);
    }
    if q == 1.0 {
        return cosine_series(u);
    }
    if q == 2.0 {
        return -sine_series(u);
    }
    -cosine_series(u)
}

fn cosine_at(q: f64, u: f64) -> f64
    ensures { result ≡ cosine_at q u }
{
    if q == 0.0 {
        return cosine_series(u);
    }
    if q == 1.0 {
        return -sine_series(u);
    }
    if q == 2.0 {
        return -cosine_series(u);
    }
    sine_series(u)
}

pub fn sin(t: f64) -> f64
    ensures { result ≡ sin_of t }
{
    let p = reduce(t);
    let v = sine_at(p.q, p.u);
    if t < 0.0 { -v } else { v }
}

pub fn cos(t: f64) -> f64
    ensures { result ≡ cos_of t }
{
    let p = reduce(t);
    cosine_at(p.q, p.u)
}

#[derive(Clone, Copy)]
pub struct SinCos {
    pub sin: f64,
    pub cos: f64,
}

// The sine and the cosine, by one reduction.
pub fn sin_cos(t: f64) -> SinCos
    ensures { (result.sin ≡ sin_of t) × (result.cos ≡ cos_of t) }
{
    let p = reduce(t);
    let v = sine_at(p.q, p.u);
    let c = cosine_at(p.q, p.u);
    if t < 0.0 {
        SinCos { sin: -v, cos: c }
    } else {
        SinCos { sin: v, cos: c }
    }
}

pub fn tan(t: f64) -> f64
    ensures { result ≡ tan_of t }
{
    let v = sin_cos(t);
    v.sin / v.cos
}

// The logarithm of m * 2^e.
fn ln_at(m: f64, e: f64) -> f64
    ensures { result ≡ ln_at m e }
{
    let s = (m - 1.0) / (m + 1.0);
    e * LN_2 + 2.0 * logarithm_series(s)
}

fn ln_positive(v: f64) -> f64
    requires { T (positive v) }
    ensures { result ≡ ln_of v }
{
    let p = float::decompose(f64::to_bits(v));
    let m = f64::from_bits(p.m + HALF);
    let e = (p.e as f64) - EXPONENT_OF_ONE;
    ln_at(m, e)
}

// The natural logarithm: -infinity at both zeros, NaN below them.
pub fn ln(v: f64) -> f64
    ensures { result ≡ ln_of v }
{
    if v < 0.0 {
        return 0.0 / 0.0;
    }
    if v == 0.0 {
        return -1.0 / 0.0;
    }
    if float::is_finite(v) {
        return ln_positive(v);
    }
    v
}

// 2^k, by the exponent's field.
fn two_to(k: f64) -> f64
    requires { Small k }
    ensures { result ≡ two_to k }
{
    let f = (k + BIAS) as u64;
    f64::from_bits(f * TWO_52)
}

pub fn exp(v: f64) -> f64
    ensures { result ≡ exp_of v }
{
    if v.is_nan() {
        return v;
    }
    let w = v.clamp(-EXP_LIMIT, EXP_LIMIT);
    let k = float::round(w / LN_2);
    let [s] = exponential_series([w - k * LN_2]);
    s * two_to(k)
}

// The exponentials of two values, side by side. Apart from `exp`, since a NaN among the two leaves the other alone.
pub fn exp_both(v: f64, w: f64) -> [f64; 2]
    ensures { result ≡ exp_of v ∷ exp_of w ∷ [] }
{
    if v.is_nan() {
        return [v, exp(w)];
    }
    if w.is_nan() {
        return [exp(v), w];
    }
    let a = v.clamp(-EXP_LIMIT, EXP_LIMIT);
    let b = w.clamp(-EXP_LIMIT, EXP_LIMIT);
    let k = float::round(a / LN_2);
    let l = float::round(b / LN_2);
    let [s, r] = exponential_series([a - k * LN_2, b - l * LN_2]);
    [s * two_to(k), r * two_to(l)]
}

// The tangent of half the angle whose tangent is v.
fn half_angle(v: f64) -> f64
    ensures { result ≡ half_angle_of v }
{
    v / (1.0 + root::root(1.0 + v * v))
}

// The angle from 0 to FRAC_PI_2 for w, the tangent of a quarter of it.
fn quadruple(w: f64) -> f64
    ensures { result ≡ quadrupled w }
{
    let a = 4.0 * arctangent_series(w);
    a.clamp(0.0, FRAC_PI_2)
}

fn atan_small(v: f64) -> f64
    ensures { result ≡ atan_small v }
{
    let w = half_angle(half_angle(v));
    quadruple(w)
}

fn atan_nonneg(v: f64) -> f64
    ensures { result ≡ atan_nonneg v }
{
    if 1.0 < v {
        let a = FRAC_PI_2 - atan_small(1.0 / v);
        return a.clamp(0.0, FRAC_PI_2);
    }
    atan_small(v)
}

// The arc tangent. Below 0 it is the opposite of the arc tangent of -v.
pub fn atan(v: f64) -> f64
    ensures { result ≡ atan_of v }
{
    if v < 0.0 {
        return -atan_nonneg(-v);
    }
    atan_nonneg(v)
}

// The arc tangent of an argument above 0 in three stages, so that a line of points goes through one after the other.
// Above 1 the first two hand on the opposite.
pub fn atan_first(v: f64) -> f64
    ensures { result ≡ atan_first v }
{
    if 1.0 < v {
        return -half_angle(1.0 / v);
    }
    half_angle(v)
}

pub fn atan_second(w: f64) -> f64
    ensures { result ≡ atan_second w }
{
    if w < 0.0 {
        return -half_angle(-w);
    }
    half_angle(w)
}

pub fn atan_third(w: f64) -> f64
    ensures { result ≡ atan_third w }
{
    if w < 0.0 {
        let a = FRAC_PI_2 - quadruple(-w);
        return a.clamp(0.0, FRAC_PI_2);
    }
    quadruple(w)
}

// The angle of (|x|, |y|): FRAC_PI_2 where x = 0, also at two zeros.
fn angle(y: f64, x: f64) -> f64
    ensures { result ≡ angle_of y x }
{
    if x == 0.0 {
        return FRAC_PI_2;
    }
    atan(float::abs(y) / float::abs(x))
}

fn half_plane(y: f64, x: f64) -> f64
    ensures { result ≡ half_plane_of y x }
{
    let a = angle(y, x);
    if x < 0.0 { PI - a } else { a }
}

pub fn atan2(y: f64, x: f64) -> f64
    ensures { result ≡ atan2_of y x }
{
    if y.is_nan() {
        return y;
    }
    let b = half_plane(y, x);
    if y < 0.0 { -b } else { b }
}

pub fn acos(v: f64) -> f64
    ensures { result ≡ acos_of v }
{
    2.0 * atan(root::root((1.0 - v) / (1.0 + v)))
}
