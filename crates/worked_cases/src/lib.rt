// The worked cases of the formats, proved from the definitions that the contracts of the calls use.
#![tactic(auto)]

ghost use Rattle.std.specs.Prelude.{◌≡◌, length};
ghost use Rattle.worked_cases.specs.Cases.{cases, AllHold};

// How many worked cases there are; that all of them hold is its promise.
pub fn worked_cases() -> usize
    ensures hold { AllHold cases }
    ensures count { result ≡ length cases }
{
    13
}
