ghost use Rattle.std.specs.Prelude.{◌≡◌, ◌||◌, ◌==◌};
ghost use Rattle.std.specs.List.{list_any};
ghost use Rattle.druid_folder.specs.FileName.{is_file_name};

/// Whether a file of a folder can have the name: it is not empty, is neither `.` nor `..`, and has
/// no `/` and no NUL byte.
pub fn is_file_name(name: &str) -> bool
    ensures { result ≡ is_file_name name.now }
{
    name != "" && name != "." && name != ".." && !leads_elsewhere(name.as_bytes())
}

// Whether a byte ends a part of a path, or the path.
fn leads_elsewhere(name: &[u8]) -> bool
    ensures { result ≡ list_any (λ b. b == 47 || b == 0) name.now }
{
    name.iter().any(|b| *b == b'/' || *b == 0)
}
