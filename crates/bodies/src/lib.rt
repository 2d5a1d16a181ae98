// The body of a list and its reading, as definitions (specs/) with their laws (proofs/). No code but for a struct: the crate above cites it.
#![tactic(auto)]

use answers::Refusal;
use modes::Mode;

// Where reading stopped: at what refusal if any, how many blocks it had taken, the place in the bytes where they end, how many values were left,
// and the mode past those that the blocks hold. (A struct: all this is told beside a refusal too.)
#[derive(Clone, Copy, Debug, PartialEq, Eq)]
pub struct Stop {
    pub outcome: Result<(), Refusal>,
    pub blocks: usize,
    pub place: usize,
    pub left: usize,
    pub mode: Mode,
}
