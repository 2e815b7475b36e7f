// What is proved of the kinds: each statement stands on the contract of a function, which does nothing else.
ghost use Rattle.kind.specs.Forms.{ReadsBack, ReadsNoOther};
ghost use Rattle.kind.specs.Meanings.{BlocksXor, TalliesAdd, MapsCompose, ArrangementsPermute, OrderCounts};
ghost use Rattle.kind.specs.Model.{Laws};

use crate::Kind;

// Every kind keeps the laws.
pub fn laws_stand<K: Kind>()
    ensures { Laws K.Kind.model }
{}

// The form of a change is read as that change, and bytes that are no change's form as none.
pub fn forms_stand<K: Kind>()
    ensures back { ReadsBack K.Kind.model }
    ensures others { ReadsNoOther K.Kind.model }
{}

// Blocks change by XOR of equal places.
#[tactic(auto, using(crate::proofs::Meant::blocks_xor_lem))]
pub fn blocks_xor()
    ensures { BlocksXor }
{}

// Tallies change by addition modulo 2 ^ 32.
#[tactic(auto, using(crate::proofs::Meant::tallies_add_lem))]
pub fn tallies_add()
    ensures { TalliesAdd }
{}

// Bank maps change by composition of permutations, and an arrangement is a permutation.
#[tactic(auto, using(crate::proofs::Meant::maps_compose_lem, crate::proofs::Meant::arrangements_permute, crate::proofs::Meant::order_counts))]
pub fn maps_compose()
    ensures composing { MapsCompose }
    ensures arrangements { ArrangementsPermute }
    ensures order { OrderCounts }
{}
