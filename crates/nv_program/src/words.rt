//! The arguments that a program is given.

ghost use Rattle.std.specs.Prelude.{ℕ, List, IfErr, IfOk, map};
ghost use Rattle.std.specs.IoError.{error_kind};
ghost use Rattle.std.specs.String.{string_bytes};
ghost use Rattle.std.specs.declared.io.ErrorKind.{ErrorKind};

use std::alloc::Global;
use std::env::{self, Env};
use std::io;

/// What gives a program its arguments.
pub trait GivenWords {
    // What is said of a list of words and of the error with which reading the arguments failed. Code
    // for all that gives words learns either only by reading them, so a contract that states it says
    // that these are all words that were given, in their order.
    ghost gave: { Self → List (List ℕ) → Type 0 };

    ghost refused: { Self → ErrorKind → Type 0 };

    /// Returns the arguments, of which the first is the program's name.
    fn words(&self, alloc: Global) -> io::Result<Vec<String>>
        ensures words { IfOk result (λ words. gave self.now (map string_bytes words.items)) }
        ensures failure { IfErr result (λ error. refused self.now (error_kind error)) };
}

// Which arguments a program has isn't known to any clause.
impl<S: Env + AllocGlobal> GivenWords for S {
    ghost gave = { λ _ _. Unit {0} };

    ghost refused = { λ _ _. Unit {0} };

    fn words(&self, alloc: Global) -> io::Result<Vec<String>> {
        let words = env::args(self)?.collect(alloc)?;
        Ok(words)
    }
}
