// The fixed policy: the first member in its list, else the lowest member.
ghost use Rattle.std.specs.Prelude.{◌≡◌, ◌≤◌, [], length, IfSome, nat_lt, find, refl};
ghost use Rattle.basis.specs.Lists.{all};
ghost use Rattle.policies.specs.Modules.{has, least};
ghost use Rattle.policies.specs.Order.{first_in, First, fixed_choice, padded, fixed_by, fixed_of, ChoosesBy};
ghost use Rattle.policies.specs.Listed.{first_member, first_empty};

use crate::{News, Policy};

#[derive(Clone, Copy, Debug, PartialEq, Eq)]
pub struct Fixed {
    // the list's modules, then 14, which is no module, up to the end
    // By hand: the list is held in place, and its places are full of numbers from the beginning (fixed memory).
    order: [u8; 14],
}

impl Fixed {
    // With no list: always the lowest member.
    pub fn new() -> Fixed
        ensures value { result ≡ fixed_by [] }
    {
        Fixed { order: [14; 14] }
    }

    // With a list of modules; None if it has more than 14 entries, or one above 13.
    pub fn with_list(list: &[u8]) -> Option<Fixed>
        ensures value { result ≡ fixed_of list.now }
        ensures law { IfSome result (ChoosesBy list.now) }
    {
        if list.len() > 14 || !all_modules(list) {
            return None;
        }
        Some(Fixed {
            order: padded_to_14(list),
        })
    }
}

impl Default for Fixed {
    ghost is_default = { λ x. x ≡ fixed_by [] };

    fn default() -> Fixed {
        Fixed::new()
    }
}

fn all_modules(list: &[u8]) -> bool
    ensures { result ≡ all (λ m. nat_lt m 14) list.now }
{
    list.iter().all(|m| *m < 14)
}

fn padded_to_14(list: &[u8]) -> [u8; 14]
    requires { length list.now ≤ 14 }
    ensures value { result ≡ padded list.now }
    ensures law { ChoosesBy list.now (record { order = result }) }
{
    let mut order = [14; 14];
    order[..list.len()].copy_from_slice(list);
    order
}

fn lowest_of(members: &[bool; 14]) -> u8
    ensures { result ≡ least (has members.now) }
{
    members.iter().position(|is| *is).unwrap_or(14) as u8
}

fn has(members: &[bool; 14], m: u8) -> bool
    ensures { result ≡ has members.now m }
{
    members.get(usize::from(m)).copied().unwrap_or(false)
}

fn listed(order: &[u8; 14], members: &[bool; 14]) -> Option<u8>
    ensures { result ≡ find (has members.now) order.now }
{
    order.iter().copied().find(|m| has(members, *m))
}

fn first_of(order: &[u8; 14], members: &[bool; 14]) -> u8
    ensures value { result ≡ first_in order.now members.now }
    ensures law { First order.now members.now result }
{
    listed(order, members).unwrap_or_else(|| lowest_of(members))
}

impl Policy for Fixed {
    ghost choice = { fixed_choice };

    ghost chosen = { λ s members. s };

    ghost heard = { λ s news m. s };

    ghost member = { λ s members m short h. first_member s.order members m short h };

    ghost none = { λ s members none. (first_empty s.order members none, refl) };

    ghost above = { λ s news m high. refl };

    fn choose(&mut self, members: &[bool; 14]) -> u8
        ensures value { result ≡ fixed_choice self.old members.now }
        ensures after { self.new ≡ self.old }
        ensures law { First self.old.order members.now result }
    {
        first_of(&self.order, members)
    }

    fn told(&mut self, _news: News, _which: u8) {}
}
