// The order of the records, in one pass over them.
ghost use Rattle.std.specs.Prelude.{◌≡◌, ◌+◌, ◌≤◌, drop};
ghost use Rattle.stream.specs.Payload.{payload};
ghost use Rattle.stream.specs.Inner.Payload.{room};
ghost use Rattle.records.specs.declared.records.Record.{Record};
ghost use Rattle.records.specs.Layout.{has_role, laid_out};
ghost use Rattle.records.specs.Inner.Hits.{Stands};
ghost use Rattle.records.specs.Inner.Numbers.{tag_number};
ghost use Rattle.records.specs.Inner.Order.{LeadsTo, tag_step_of, StateWithin, StepWithin};

use crate::names::name_before;
use crate::numbers::{PointsRole, Tag};
use crate::records::{Record, Step, next_record};

// What the records so far leave to know.
#[derive(Clone, Copy)]
pub struct State {
    // the last tag, 0 before the first record, and the last option
    pub last: u8,
    pub option: u8,
    // the last variable's name: its place in the payload, and its length
    pub at: usize,
    pub len: usize,
    // which points the last item has had: 1 for those that are drawn, 2 for those of its fill, 3 for both
    pub roles: u8,
}

// Whether the last item has had points of this role.
fn has_role(roles: u8, role: u8) -> bool
    ensures { result ≡ has_role roles role }
{
    if role == PointsRole::Drawn as u8 {
        return roles % 2 == 1;
    }
    roles / 2 == 1
}

// A record whose tag has its place after the tags from 1 to its own.
fn tag(st: State, tag: Tag) -> Option<State>
    ensures { result ≡ tag_step_of st (tag_number tag) }
{
    let last = tag.number();
    (Tag::Rescale as u8 <= st.last && st.last <= last).then_some(State { last, ..st })
}

// A variable, which stands at p.
fn variable(s: &[u8], st: State, p: usize, name: u8) -> Option<State>
    requires { StateWithin st (room s.now) × (p + 2 + name ≤ room s.now) }
    ensures leads_to { LeadsTo (payload s.now) st p (Record.Variable name) result }
    ensures step_within { StepWithin result (room s.now) }
{
    let at = p + 2;
    let len = usize::from(name);
    if !name_before(s, st.at, st.len, at, len) {
        return None;
    }
    tag(State { at, len, ..st }, Tag::Variable)
}

// The state behind one record, which stands at p; none where the record is not in its place.
fn step(s: &[u8], st: State, p: usize, r: Record) -> Option<State>
    requires { StateWithin st (room s.now) × Stands (drop p (payload s.now)) r }
    ensures leads_to { LeadsTo (payload s.now) st p r result }
    ensures step_within { StepWithin result (room s.now) }
{
    match r {
        Record::Rescale => (st.last == 0).then_some(State {
            last: Tag::Rescale as u8,
            ..st
        }),
        Record::Option(option) => {
            if option <= st.option {
                return None;
            }
            tag(State { option, ..st }, Tag::Option)
        }
        Record::Feature(_) => tag(st, Tag::Feature),
        Record::Variable(name) => variable(s, st, p, name),
        Record::Place(_) => tag(st, Tag::Place),
        Record::Item { .. } => tag(State { roles: 0, ..st }, Tag::Item),
        Record::Points { role, .. } => {
            if has_role(st.roles, role) {
                return None;
            }
            (st.last == Tag::Item as u8).then_some(State {
                roles: st.roles + 1 + role,
                ..st
            })
        }
        Record::Path { .. } => (st.last == Tag::Item as u8).then_some(st),
    }
}

// Condition 3.
pub fn layout(s: &[u8]) -> bool
    ensures { result ≡ laid_out (payload s.now) }
{
    let mut p = 0usize;
    let mut st = State {
        last: 0,
        option: 0,
        at: 0,
        len: 0,
        roles: 0,
    };
    // Records follow one another by their sizes: no range has them.
    loop {
        let part = stream::part_from(s, p);
        let off = p % stream::PAYLOAD;
        match next_record(part, off) {
            Step::Bad => {
                return false;
            }
            Step::End => {
                return st.last >= Tag::Rescale as u8;
            }
            Step::Got(r, k) => {
                let Some(next) = step(s, st, p, r) else {
                    return false;
                };
                st = next;
                p += k;
            }
        }
    }
}
