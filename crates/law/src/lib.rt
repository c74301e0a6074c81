// The law of a run: what holds of every history of a query that a draft made, whatever the policy.
#![tactic(auto)]

ghost use Rattle.std.specs.Prelude.{◌≡◌, true};
ghost use Rattle.query.specs.Lawful.{Lawful};
ghost use Rattle.query.specs.Queries.{Query};
ghost use Rattle.law.specs.Law.{RunLaw, BesideTheLaw};

mod examples;

pub use examples::worked_examples_hold;

// The law holds of every lawful query. The contract is the theorem.
pub fn law_holds() -> bool
    ensures value { result ≡ true }
    ensures law { (q : Query) → Lawful q → RunLaw q }
    ensures beside { (q : Query) → Lawful q → BesideTheLaw q }
{
    true
}
