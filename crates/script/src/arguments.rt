// The arguments of a command, read one after the other from the words that follow its name.
ghost use Rattle.std.specs.Prelude.{◌≡◌, IfErr, drop};
ghost use Rattle.std.specs.Str.Parse.{ParsesSigned};
ghost use Rattle.std.specs.Result.{result_map_both};
ghost use Rattle.script.specs.Arguments.{word as word_of, number as number_of, decimal, ended, number_or_none, only_word, only_number, two_numbers, number_and_word};
ghost use Rattle.script.specs.declared.error.ScriptError.TheVariants.{Number};
ghost use Rattle.std.specs.Int.{w32};

use crate::error::ScriptError;
use crate::line::Words;

// The number that a word writes in decimal. It and `signed` stay two: each clause speaks of its own type, and a common body
// would be as long.
pub fn unsigned(w: &str) -> Result<u32, ScriptError>
    ensures { result ≡ decimal w.now }
{
    w.parse::<u32>().map_err(|_| ScriptError::Number)
}

// The number that a word writes in decimal, with a sign before it or not.
pub fn signed(w: &str) -> Result<i32, ScriptError>
    ensures reads { ParsesSigned w32 10 w.now result }
    ensures refused { IfErr result (λ e. e ≡ Number) }
{
    w.parse::<i32>().map_err(|_| ScriptError::Number)
}

impl<'a> Words<'a> {
    // The next word.
    pub(crate) fn word(&mut self) -> Result<&'a str, ScriptError>
        ensures read { result_map_both (λ w. (w.now, self.new)) (λ e. e) result ≡ word_of self.old }
        ensures left { self.new ≡ drop 1 self.old }
    {
        self.next().ok_or(ScriptError::Missing)
    }

    // The number that the next word writes. The word counts as read, also where it writes none.
    pub(crate) fn number(&mut self) -> Result<u32, ScriptError>
        ensures read { result_map_both (λ n. (n, self.new)) (λ e. e) result ≡ number_of self.old }
        ensures left { self.new ≡ drop 1 self.old }
    {
        unsigned(self.word()?)
    }

    // No word is left.
    pub(crate) fn end(mut self) -> Result<(), ScriptError>
        ensures { result ≡ ended self.entry }
    {
        // not `ok_or`: here a word is the error
        match self.next() {
            Some(_) => Err(ScriptError::Extra),
            None => Ok(()),
        }
    }

    // A number that may be left out, and nothing after it.
    pub(crate) fn number_or_none(mut self) -> Result<Option<u32>, ScriptError>
        ensures { result ≡ number_or_none self.entry }
    {
        let n = self.next().map(unsigned).transpose()?;
        self.end()?;
        Ok(n)
    }

    // A word, and nothing after it. It and the next three are no plainer as one function over a reader: each has its definition.
    pub(crate) fn only_word(mut self) -> Result<&'a str, ScriptError>
        ensures { result_map_both (λ w. w.now) (λ e. e) result ≡ only_word self.entry }
    {
        let w = self.word()?;
        self.end()?;
        Ok(w)
    }

    // A number, and nothing after it.
    pub(crate) fn only_number(mut self) -> Result<u32, ScriptError>
        ensures { result ≡ only_number self.entry }
    {
        let n = self.number()?;
        self.end()?;
        Ok(n)
    }

    // Two numbers, and nothing after them.
    pub(crate) fn two_numbers(mut self) -> Result<(u32, u32), ScriptError>
        ensures { result ≡ two_numbers self.entry }
    {
        let m = self.number()?;
        let n = self.number()?;
        self.end()?;
        Ok((m, n))
    }

    // A number and a word, and nothing after them.
    pub(crate) fn number_and_word(mut self) -> Result<(u32, &'a str), ScriptError>
        ensures { result_map_both (λ p. (p.0, p.1.now)) (λ e. e) result ≡ number_and_word self.entry }
    {
        let n = self.number()?;
        let w = self.word()?;
        self.end()?;
        Ok((n, w))
    }
}
