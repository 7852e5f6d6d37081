//! The names of the files beside a file, and of its folder.
ghost use Rattle.std.specs.Prelude.{◌≡◌, ◌≢◌, ◌++◌, ◌⊎◌, ℕ, List, [], Some, IfOk, IfSome, IsSomeAnd, string_bytes, codes};
ghost use Rattle.std.specs.Path.{path_parent};

use std::alloc::{AllocError, Global};
use std::path::Path;

/// The name of a file that belongs to another: the name of that, with an ending.
pub fn name_beside(alloc: Global, path: &str, ending: &str) -> Result<String, AllocError>
    ensures { IfOk result (λ name. string_bytes name ≡ path.now ++ ending.now) }
{
    format!(in alloc; "{path}{ending}")
}

/// The folder of a file. A bare name is in the folder of the process.
pub fn folder_of(path: &str) -> &str
    ensures named { IfSome (path_parent path.now) (λ folder. folder ≢ [] → result.now ≡ folder) }
    ensures bare { path_parent path.now ≡ Some [] → result.now ≡ codes "." }
{
    match Path::new(path).parent() {
        Some(folder) if !folder.as_str().is_empty() => folder.as_str(),
        _ => ".",
    }
}

/// The file whose log, index of the log or journal SQLite would find under this name.
pub fn file_of_log(path: &str) -> Option<&str>
    ensures some { IfSome result (λ file. (path.now ≡ file.now ++ codes "-wal")
        ⊎ (path.now ≡ file.now ++ codes "-shm") ⊎ (path.now ≡ file.now ++ codes "-journal")) }
    ensures log { (file : List ℕ) → path.now ≡ file ++ codes "-wal" → IsSomeAnd result (λ it. it.now ≡ file) }
    ensures index { (file : List ℕ) → path.now ≡ file ++ codes "-shm" → IsSomeAnd result (λ it. it.now ≡ file) }
    ensures journal { (file : List ℕ) → path.now ≡ file ++ codes "-journal" → IsSomeAnd result (λ it. it.now ≡ file) }
{
    match path.strip_suffix("-wal") {
        Some(file) => Some(file),
        None => match path.strip_suffix("-shm") {
            Some(file) => Some(file),
            None => path.strip_suffix("-journal"),
        },
    }
}
