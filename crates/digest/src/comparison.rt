//! A comparison whose time tells nothing of where two texts differ.
ghost use Rattle.std.specs.Prelude.{◌≡◌, ◌↔◌, IsTrue};

/// Whether both are the same bytes. Of texts of one length it looks at every byte, so that the time that it takes does not say how many of
/// them were right.
pub fn is_same(left: &[u8], right: &[u8]) -> bool
    ensures { IsTrue result ↔ (left.now ≡ right.now) }
{
    if left.len() != right.len() {
        return false;
    }
    let mut difference = 0u8;
    for (i, a) in left.iter().enumerate() {
        difference |= *a ^ right[i];
    }
    difference == 0
}
