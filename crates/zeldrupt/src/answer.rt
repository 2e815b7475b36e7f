// What a command answers where nothing refuses it.
use std::alloc::{AllocError, Global};

// A state, a change or a form is the text that the kind's notation gives.
#[derive(Debug, Drop)]
pub enum Answer {
    Formatted,
    // the count of records after a call
    Count(u32),
    State(String),
    Change { change: String, steps: u32 },
    Form(String),
    Sound,
    Rolled,
    Replayed,
    Copied,
    Set,
    // the length of the image
    States(u32),
    // the length of a file
    Bytes(usize),
    Saved(usize),
    Poked,
    // a number that was asked for
    Number(u32),
    // a row, a log, the items or the bytes of a file
    Text(String),
}

impl Answer {
    // One text, and no Display: an answer goes to the output's buffer in one piece.
    pub fn into_text(self, heap: Global) -> Result<String, AllocError> {
        match self {
            Answer::Formatted => String::from_str(heap, "formatted"),
            Answer::Count(n) => format!(in heap; "count {n}"),
            Answer::State(state) => format!(in heap; "state {state}"),
            Answer::Change { change, steps } => format!(in heap; "change {change}, steps {steps}"),
            Answer::Form(form) => format!(in heap; "form {form}"),
            Answer::Sound => String::from_str(heap, "sound"),
            Answer::Rolled => String::from_str(heap, "rolled"),
            Answer::Replayed => String::from_str(heap, "replayed"),
            Answer::Copied => String::from_str(heap, "copied"),
            Answer::Set => String::from_str(heap, "set"),
            Answer::States(n) => format!(in heap; "{n} states"),
            Answer::Bytes(n) => format!(in heap; "{n} bytes"),
            Answer::Saved(n) => format!(in heap; "saved {n} bytes"),
            Answer::Poked => String::from_str(heap, "poked"),
            Answer::Number(n) => n.to_string(heap),
            Answer::Text(text) => Ok(text),
        }
    }
}
