// Warnings in a lent slice, two numbers each.
ghost use Rattle.std.specs.Prelude.{◌≡◌, ◌≤◌, length};
ghost use Rattle.values.specs.Inner.Refusals.{kind_of};
ghost use Rattle.values.specs.Inner.Warnings.{cursor_by, pushed};
ghost use Rattle.values.specs.declared.refusal.Refusal.TheVariants.{WarningRoom};

use crate::Refusal;

// What a host is warned of. Numbers are the host's.
#[derive(Clone, Copy, Debug, PartialEq, Eq)]
pub enum WarningKind {
    // view_scale is ignored
    ViewScale = 1,
    // a control point does not resolve
    Unresolved = 2,
    // a host feature overrides a control point
    Overridden = 3,
    // something is ignored because control points exist
    Ignored = 4,
    // an item lacks its geometry
    MissingGeometry = 5,
    // the vertex allowance was spent
    AllowanceSpent = 6,
}

impl WarningKind {
    // The number that a host is given.
    pub fn number(self) -> u32
        ensures { result ≡ kind_of self }
    {
        self as u32
    }
}

// A warning lacks room; so many numbers of the slice are used.
#[derive(Clone, Copy, Debug, PartialEq, Eq)]
pub struct NoRoom {
    pub used: usize,
}

impl From<NoRoom> for Refusal {
    ghost from_gives = { λ _ r. r ≡ WarningRoom };

    fn from(_e: NoRoom) -> Refusal {
        Refusal::WarningRoom
    }
}

// One more warning, where it has room and all before it had. How many numbers are used then.
pub fn push_warning(
    out: &mut [u32],
    used: Result<usize, NoRoom>,
    kind: u32,
    index: u32,
) -> Result<usize, NoRoom>
    requires { (cursor_by used).used ≤ length out.old }
    ensures { record { out = out.new; cursor = cursor_by result }
        ≡ pushed (record { kind = kind; index = index })
        (record { out = out.old; cursor = cursor_by used }) }
{
    let used = used?;
    if out.len() - used < 2 {
        return Err(NoRoom { used });
    }
    out[used] = kind;
    out[used + 1] = index;
    Ok(used + 2)
}
