//! Bytes by four.
ghost use Rattle.std.specs.Prelude.{◌≡◌};
ghost use Rattle.std.specs.List.{slice_get};
ghost use Rattle.host.specs.Bytes.{fours};

/// The four bytes at place `k`, or nothing where there are fewer.
pub(crate) fn four_at(bytes: &[u8], k: usize) -> Option<[u8; 4]>
    ensures { result ≡ slice_get (fours bytes.now) k }
{
    let (fours, _) = bytes.as_chunks::<4>();
    if k >= fours.len() {
        return None;
    }
    Some(fours[k])
}
