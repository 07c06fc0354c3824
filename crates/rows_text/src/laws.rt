//! What the meaning of a script is, step by step.

ghost use Rattle.rows_text.specs.Meaning.{RunIsItsSteps, UnhinderedIsPlain};

/// States that the replies to two scripts in a row are those to the first, and then those to the second from where the first ended.
pub fn run_is_its_steps()
    ensures { RunIsItsSteps }
{}

/// States that, where no file stands in the way, the replies to commands and the state after them are those of a plain list.
pub fn unhindered_is_plain()
    ensures { UnhinderedIsPlain }
{}
