// Points written into a lent slice, two floats each.
ghost use Rattle.std.specs.Prelude.{◌≡◌, ℕ, ◌<◌, ◌≤◌, [], ◌∷◌, length};
ghost use Rattle.std.specs.Result.{result_ok};
ghost use Rattle.densify.specs.Densify.{without_draws, leaf_of, round_to};
ghost use Rattle.densify.specs.Inner.Written.{closing_in, Written};
ghost use Rattle.values.specs.declared.Point.{Point};
ghost use Rattle.values.specs.Inner.Points.{point_in};

use budget::Budget;

// Where the next point goes, and what is left of the budget. An Err has where the point that has no room would go.
#[derive(Clone, Copy)]
pub struct PointCursor {
    pub at: usize,
    pub budget: Budget,
}

// The end of a piece of a cubic: it draws one; a piece that is not flat with fewer than 2 left is cut short.
pub fn leaf(
    flat: bool,
    p: [f64; 2],
    budget: Budget,
    work: &mut [f64],
    at: usize,
) -> Result<PointCursor, PointCursor>
    requires { at ≤ length work.old }
    ensures { Written work.old work.new at (leaf_of flat (point_in p) budget) (result_ok result) }
{
    let cut = !flat && budget.left < 2;
    let marked = Budget {
        hit: budget.hit || cut,
        ..budget
    };
    put_point(p[0], p[1], marked.take(1, 1).budget, work, at)
}

// One point more, where it has room; it draws nothing.
pub fn put_point(
    x: f64,
    y: f64,
    budget: Budget,
    work: &mut [f64],
    at: usize,
) -> Result<PointCursor, PointCursor>
    requires { at ≤ length work.old }
    ensures { Written work.old work.new at
        (without_draws (record { x = x; y = y } ∷ []) budget) (result_ok result) }
{
    if work.len() - at < 2 {
        return Err(PointCursor { at, budget });
    }
    work[at] = x;
    work[at + 1] = y;
    Ok(PointCursor { at: at + 2, budget })
}

// n points more, each as `f` makes it of its number.
pub fn put_points<F: Fn(usize) -> [f64; 2]>(
    n: usize,
    f: F,
    budget: Budget,
    work: &mut [f64],
    at: usize,
) -> Result<PointCursor, PointCursor>
    requires callable { (k : ℕ) → k < n → F.pre f k }
    requires within { at ≤ length work.old }
    ensures { (g : ℕ → Point) → ((k : ℕ) (p : _) → k < n → F.post f k p → point_in p ≡ g k)
        → Written work.old work.new at (without_draws (round_to g n) budget) (result_ok result) }
{
    let mut next = at;
    for k in 0..n {
        let p = f(k);
        next = put_point(p[0], p[1], budget, work, next)?.at;
    }
    Ok(PointCursor { at: next, budget })
}

// Makes a ring of the points that stand from `from` to `at`: the first once more, unless the last equals it. By value:
// -0.0 equals 0.0.
pub fn close_ring(
    budget: Budget,
    work: &mut [f64],
    from: usize,
    at: usize,
) -> Result<PointCursor, PointCursor>
    requires { (from ≤ at) × (at ≤ length work.old) }
    ensures { Written work.old work.new at
        (without_draws (closing_in work.old from at) budget) (result_ok result) }
{
    let open = PointCursor { at, budget };
    if at - from < 2 {
        return Ok(open);
    }
    let x = work[from];
    let y = work[from + 1];
    if x == work[at - 2] && y == work[at - 1] {
        return Ok(open);
    }
    put_point(x, y, budget, work, at)
}
