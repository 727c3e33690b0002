// The parts of a path.
ghost use Rattle.std.specs.Prelude.{◌≡◌, List, ℕ, option_map};
ghost use Rattle.std.specs.Borrow.{Bor};
ghost use Rattle.file_model.specs.Paths.{split_path};

/// What stands before the last slash of a path and behind it; none for a path without a slash.
pub fn split(path: &str) -> Option<(&str, &str)>
    ensures { option_map (λ (parts : Bor (List ℕ) × Bor (List ℕ)). (parts.0.now, parts.1.now)) result ≡ split_path path.now }
{
    let Some(slash) = path.rfind('/') else {
        return None;
    };
    Some((&path[..slash], &path[slash + 1..]))
}
