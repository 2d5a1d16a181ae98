// What is written behind the text of a case.
ghost use Rattle.std.specs.Prelude.{◌≡◌};
ghost use Rattle.answers.specs.Answers.{number_in};
ghost use Rattle.tables.specs.Shown.{answer_text, outcome_text};

use crate::buffers::first;
use crate::checksum;
use answers::{Answer, Refusal};
use std::fmt;

// The number of the refusal, and 0 where there is none. (A number: it is what is written.)
pub fn number<T>(answer: &Result<T, Refusal>) -> u32
    ensures { result ≡ number_in answer.now }
{
    match answer {
        Ok(_) => 0,
        Err(refusal) => refusal.number(),
    }
}

// What a call answers: 0 and its length, or the number of its refusal and 0.
#[derive(Clone, Copy)]
pub struct Answered<T>(pub Result<T, Refusal>);

impl<T: fmt::Display> fmt::Display for Answered<T> {
    ghost output = { λ a. answer_text T.output a.0 };

    fn fmt<W: fmt::Write>(&self, f: &mut fmt::Formatter<W>) -> fmt::Result {
        match &self.0 {
            Ok(length) => write!(f, "0,{length}"),
            Err(refusal) => write!(f, "{},0", refusal.number()),
        }
    }
}

// What a call answers, and the checksum of its output afterwards.
#[derive(Clone, Copy)]
pub struct Outcome {
    pub answer: Answer,
    pub sum: u32,
}

impl fmt::Display for Outcome {
    ghost output = { λ o. outcome_text o.answer o.sum };

    fn fmt<W: fmt::Write>(&self, f: &mut fmt::Formatter<W>) -> fmt::Result {
        write!(f, "{},{}", Answered(self.answer), self.sum)
    }
}

// Bytes in hex.
#[derive(Clone, Copy)]
pub struct Hex<'a>(pub &'a [u8]);

impl<'a> fmt::Display for Hex<'a> {
    fn fmt<W: fmt::Write>(&self, f: &mut fmt::Formatter<W>) -> fmt::Result {
        for byte in self.0 {
            write!(f, "{byte:02x}")?;
        }
        Ok(())
    }
}

// The checksum of some values, and the first so many of them.
#[derive(Clone, Copy)]
pub struct Excerpt<'a> {
    pub values: &'a [u32],
    pub shown: usize,
}

impl<'a> fmt::Display for Excerpt<'a> {
    fn fmt<W: fmt::Write>(&self, f: &mut fmt::Formatter<W>) -> fmt::Result {
        write!(f, "{}", checksum(self.values))?;
        for (place, value) in first(self.values, self.shown).iter().enumerate() {
            let before = if place == 0 { ':' } else { ',' };
            write!(f, "{before}{value}")?;
        }
        Ok(())
    }
}
