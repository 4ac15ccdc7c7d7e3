//! What stands at a gate.
ghost use Rattle.std.specs.Prelude.{◌≡◌, ◌≤◌, ◌<◌, ℕ, List, ◌∷◌, length, take};
ghost use Rattle.std.specs.Int.{to_le_bytes};
ghost use Rattle.std.proofs.Common.{w32};
ghost use Rattle.lv_journal.specs.Bytes.{found_at};
ghost use Rattle.lv_journal.specs.Finding.{FitsIn};

/// What the bytes from a gate on begin with.
pub(crate) enum Found {
    /// There is no gate.
    Missing,
    /// A closed gate.
    Shut,
    /// An open gate with no whole frame behind it, or with one of no bytes.
    Broken,
    /// An open gate with a frame whose payload has so many bytes.
    Open(u32),
}

/// What the bytes from a gate on begin with. Of those `left` bytes the first five are `head`.
pub(crate) fn what_stands(head: &[u8], left: u64) -> Found
    requires { length head.now ≤ 5 }
    ensures told { (rest : List ℕ) → head.now ≡ take 5 rest → left ≡ length rest → result ≡ found_at rest }
    ensures fits { FitsIn left result }
    ensures spelled { (n : ℕ) → result ≡ Found.Open n → head.now ≡ 1 ∷ to_le_bytes w32 n }
{
    if head.is_empty() || left == 0 {
        return Found::Missing;
    }
    if head[0] != 1 {
        return Found::Shut;
    }
    if head.len() < 5 {
        return Found::Broken;
    }
    let count = u32::from_le_bytes([head[1], head[2], head[3], head[4]]);
    if count == 0 || left < 5 + count as u64 {
        return Found::Broken;
    }
    Found::Open(count)
}
