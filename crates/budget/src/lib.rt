// The vertex allowance that every producer of vertices draws from, after the source's densify.rs.
#![tactic(auto)]

ghost use Rattle.std.specs.Prelude.{◌≡◌};
ghost use Rattle.budget.specs.Budget.{allowance_of, fresh, take_of};

// The vertices that one scene may draw: on a panel of the entry tier, and on any other.
const ENTRY_VERTICES: usize = 20000;

const MAX_VERTICES: usize = 2000000;

// How many vertices are left, and whether a request had to be cut down.
#[derive(Clone, Copy)]
pub struct Budget {
    pub left: usize,
    pub hit: bool,
}

// A draw's grant, and the budget after it.
#[derive(Clone, Copy)]
pub struct Taken {
    pub granted: usize,
    pub budget: Budget,
}

// The vertices that one scene may draw on a panel of this tier.
#[tactic(auto, unfolding(crate::specs::Budget::allowance_of))]
fn allowance(tier: u32) -> usize
    ensures { result ≡ allowance_of tier }
{
    if tier == 0 {
        ENTRY_VERTICES
    } else {
        MAX_VERTICES
    }
}

impl Budget {
    // The whole allowance of a tier.
    pub fn new(tier: u32) -> Budget
        ensures { result ≡ fresh (allowance_of tier) }
    {
        Budget {
            left: allowance(tier),
            hit: false,
        }
    }

    // Up to `wanted` vertices, never fewer than the smaller of `wanted` and `floor`.
    #[tactic(auto, unfolding(crate::specs::Budget::grant_of, crate::specs::Budget::take_of))]
    pub fn take(self, wanted: usize, floor: usize) -> Taken
        ensures { result ≡ take_of self wanted floor }
    {
        let granted = wanted.min(self.left.max(floor));
        Taken {
            granted,
            budget: Budget {
                left: self.left.saturating_sub(granted),
                hit: self.hit || granted < wanted,
            },
        }
    }
}
