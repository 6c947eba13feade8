//! Files that a program reads by their names.

ghost use Rattle.std.specs.Prelude.{◌≡◌, ◌++◌, ◌<◌, ℕ, [], List, IfErr, IfOk, length};
ghost use Rattle.std.specs.IoError.{error_kind};
ghost use Rattle.std.specs.declared.io.ErrorKind.{ErrorKind};

use std::alloc::Global;
use std::fs::{self, Files};
use std::io::{self, Read};

/// Files that have names.
pub trait NamedFiles {
    // What such files say of a name and the bytes of its file, and of a name and the error with which
    // opening or reading its file failed. Code for all such files learns either only by reading the
    // file of that name, so a contract that states it says that this file was read.
    ghost had: { Self → List ℕ → List ℕ → Type 0 };

    ghost failed: { Self → List ℕ → ErrorKind → Type 0 };

    /// Returns the first bytes of a file, and all of them if they are fewer than `most`.
    fn bytes_at(&self, alloc: Global, path: &str, most: u64) -> io::Result<Vec<u8>>
        ensures bytes { IfOk result (λ bytes. (rest : List ℕ)
            × had self.now path.now (bytes.items ++ rest)
            × (length bytes.items < most → rest ≡ [])) }
        ensures failure { IfErr result (λ error. failed self.now path.now (error_kind error)) };
}

impl<S: Files> NamedFiles for S {
    ghost use Rattle.std.specs.Prelude.{◌≡◌, IfSome};

    // They are the bytes of an open file, if those are known.
    ghost had = { λ _ _ all. (file : S.File) × IfSome (S.File.remaining file) (λ known. known ≡ all) };

    ghost failed = { λ _ _ _. Unit {0} };

    fn bytes_at(&self, alloc: Global, path: &str, most: u64) -> io::Result<Vec<u8>> {
        let file = fs::open(self, path)?;
        let mut bytes = Vec::new(alloc);
        let mut limited = file.take(most);
        limited.read_to_end(&mut bytes)?;
        Ok(bytes)
    }
}
