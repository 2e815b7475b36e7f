// What is promised of every volume: each statement stands on the contract of a function, and specs/ has its text.
// Where a lemma named at its function is not enough to prove it, as with one that takes the laws of the kind, an answer hands it over.
#![tactic(auto)]

pub mod owner;

ghost use Rattle.history.specs.Filing.{FilesThatLoad};
ghost use Rattle.history.specs.Promises.{Promises, PromisesAfterLoad};
ghost use Rattle.history.specs.Soundness.{ChecksExactly};
ghost use Rattle.history.specs.Worked.{Worked};

use kind::Kind;

// After a format that is accepted, every sequence of calls, refused ones included, leaves a volume whose answers are those of the plain history.
// The same after a load into any memory.
pub fn promises_stand<K: Kind>()
    ensures formatted { Promises K.Kind.model }
    ensures loaded { PromisesAfterLoad K.Kind.model }
{}

// The worked tally volume.
#[tactic(auto, using(crate::proofs::Figures::worked))]
pub fn worked_volume()
    ensures { Worked }
{}

// A check answers yes, on any memory, exactly where some writes after a format leave what counts the same.
pub fn checks_exactly<K: Kind>()
    ensures { ChecksExactly K.Kind.model }
{}

// A load accepts just the saves of volumes that writes leave, and saving again gives the same bytes.
pub fn files_that_load<K: Kind>()
    ensures { FilesThatLoad K.Kind.model }
{}
