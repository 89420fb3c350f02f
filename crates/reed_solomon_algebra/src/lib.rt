// What the code words of Reed-Solomon codes are, and the law that they obey; all of it is in specs/ and proofs/.
#![tactic(auto)]

ghost use Rattle.reed_solomon_algebra.specs.Laws.{AllCodeLaws};

// The laws of the codes that mend up to 15 symbols, as a claim.
pub fn code_laws()
    ensures { AllCodeLaws }
{}
