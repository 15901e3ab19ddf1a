ghost use Rattle.std.specs.Prelude.{◌≡◌, IfOk, string_bytes};
ghost use Rattle.answers.specs.Line.{line};

use crate::answer::Answer;
use std::alloc::{AllocError, Global};

/// The line that reports an answer, with its line feed.
pub fn line_of(heap: Global, answer: Answer) -> Result<String, AllocError>
    ensures { IfOk result (λ s. string_bytes s ≡ line answer) }
{
    format!(in heap; "{answer}\n")
}
