// Routing policies: the promises that the engine is proved against, and the policies that are built in.
#![tactic(auto)]

ghost use Rattle.std.specs.Prelude.{◌≡◌, ℕ, ◌≤◌, Bool, true, List, length};
ghost use Rattle.policies.specs.declared.News.{News};
ghost use Rattle.policies.specs.Modules.{has, Empty};

pub mod fixed;
pub mod lottery;

// What a policy hears of a module: that a tuple was routed to it, or that it returned one.
#[derive(Clone, Copy, Debug, PartialEq, Eq)]
pub enum News {
    Routed,
    Returned,
}

// Routes tuples: chooses a module from a set, and hears what becomes of its choices. Modules 0 to 5 are the tables, 6 to 13 the
// filters, and 14 stands for no module. A policy's meaning is its state: state and argument alone fix each choice and each next state.
// By hand: an answer is a number, 14 too, since the interface of policies fixes the numbers of modules.
pub trait Policy {
    // the module that it answers for a set
    ghost choice: { Self → List Bool → ℕ };

    // its state after that choice
    ghost chosen: { Self → List Bool → Self };

    // its state after news of a module
    ghost heard: { Self → News → ℕ → Self };

    fn choose(&mut self, members: &[bool; 14]) -> u8
        ensures value { result ≡ choice self.old members.now }
        ensures after { self.new ≡ chosen self.old members.now };

    fn told(&mut self, news: News, which: u8)
        ensures after { self.new ≡ heard self.old news which };

    // a set with a member gets a member
    ghost member: { (s : Self) (members : List Bool) (m : ℕ) → length members ≤ 14 → has members m ≡ true → has members (choice s members) ≡ true };

    // the empty set gets 14, and the state stays
    ghost none: { (s : Self) (members : List Bool) → Empty members → (choice s members ≡ 14) × (chosen s members ≡ s) };

    // news of what is no module changes nothing
    ghost above: { (s : Self) (news : News) (m : ℕ) → 14 ≤ m → heard s news m ≡ s };
}
