// The volume for other languages.
#![tactic(auto)]

pub mod calls;
