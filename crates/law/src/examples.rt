// The worked examples.
ghost use Rattle.std.specs.Prelude.{◌≡◌, true};
ghost use Rattle.law.specs.Examples.{WorkedExamples};

// They come out as told. The contract is the theorem.
pub fn worked_examples_hold() -> bool
    ensures value { result ≡ true }
    ensures law { WorkedExamples }
{
    true
}
