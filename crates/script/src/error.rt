// What is wrong with a line of a script.
use thiserror::Error;

#[derive(Clone, Copy, Debug, PartialEq, Eq, Error)]
pub enum ScriptError {
    // the line has no word
    #[error("blank line")]
    Blank,
    // its first word, or the word that says which part, names no command
    #[error("unknown command")]
    Unknown,
    #[error("missing argument")]
    Missing,
    #[error("too many arguments")]
    Extra,
    #[error("not a number")]
    Number,
    #[error("not hexadecimal")]
    Hex,
}
