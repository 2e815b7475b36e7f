// What the journal makes of a log that writes left: each theorem stands on the contract of a function, and specs/Theorems.antt states it.
// Where a lemma named at its function is not enough to prove it, as with one that takes the laws of the kind, an answer hands it over.
#![tactic(auto)]

ghost use Rattle.logs.specs.Theorems.{NeverRefused, HeadMoves, SpansRight, StepsFew, EachRecord};

use kind::Kind;

// A log left by writes takes one more.
pub fn never_refused<K: Kind>()
    ensures { NeverRefused K.Kind.model }
{}

// A write becomes the head of its cell.
pub fn head_moves<K: Kind>()
    ensures { HeadMoves K.Kind.model }
{}

// A span is what the writes between its moments did to the cell.
pub fn spans_right<K: Kind>()
    ensures { SpansRight K.Kind.model }
{}

// A span takes few steps.
#[tactic(auto, using(crate::proofs::Proved::steps_few_lem))]
pub fn steps_few<K: Kind>()
    ensures { StepsFew K.Kind.model }
{}

// Each record is the one that its write makes.
pub fn each_record<K: Kind>()
    ensures { EachRecord K.Kind.model }
{}
