// The kind table, which the host lends: for each kind of item whether it belongs on the map or on the screen, or is not
// drawn.
#![tactic(auto)]

ghost use Rattle.std.specs.Prelude.{◌≡◌};
ghost use Rattle.values.specs.Inner.Refusals.{number_by};
ghost use Rattle.stream.specs.Conditions.{first_of};
ghost use Rattle.kind_table.specs.KindTable.{entry_of, not_drawn, on_screen, any_above, of_kind_table};

use records::Kind;
use values::Refusal;

// A table has an entry for each kind.
const KINDS: usize = 11;

// What an entry can say beside 0, which is geographic. Bytes and no enum: `entry_of` promises what the host's table
// has, whatever it is.
const SCREEN: u8 = 1;

const NOT_DRAWN: u8 = 2;

// A kind that the table has no entry for is not drawn.
pub fn entry_of(kinds: &[u8], kind: u8) -> u8
    ensures { result ≡ entry_of kinds.now kind }
{
    let k = kind as usize;
    if k < kinds.len() { kinds[k] } else { NOT_DRAWN }
}

// Of an item by its flag, and the entry of its kind.
#[tactic(auto, unfolding(crate::specs::KindTable::not_drawn))]
pub fn is_not_drawn(hidden: bool, entry: u8) -> bool
    ensures { result ≡ not_drawn hidden entry }
{
    hidden || entry == NOT_DRAWN
}

// Of an item by its class, and the entry of its kind.
#[tactic(auto, unfolding(crate::specs::KindTable::on_screen))]
pub fn is_on_screen(class: bool, entry: u8) -> bool
    ensures { result ≡ on_screen class entry }
{
    class || entry == SCREEN
}

// Whether an entry is none of the three.
fn is_any_above(kinds: &[u8]) -> bool
    ensures { result ≡ any_above kinds.now }
{
    kinds.iter().any(|e| *e > NOT_DRAWN)
}

// Condition 20: whether the table can be used.
pub fn check_table(kinds: &[u8]) -> Result<(), Refusal>
    ensures { number_by result ≡ first_of (of_kind_table kinds.now) }
{
    if kinds.len() != KINDS
        || is_any_above(kinds)
        || entry_of(kinds, Kind::Block as u8) != NOT_DRAWN
    {
        return Err(Refusal::KindTable);
    }
    Ok(())
}
