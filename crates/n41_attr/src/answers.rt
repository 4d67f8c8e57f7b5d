ghost use Rattle.std.specs.Prelude.{◌≡◌, ◌&&◌, not};
ghost use Rattle.n41_attr.specs.Bitmaps.{has};
ghost use Rattle.n41_attr.specs.Attributes.{least_unasked, refusal};

use crate::bitmaps::has;
use n41_types::{Attrs, Bitmap};

fn is_unasked(is_told: bool, mask: &[u32], number: u32) -> bool
    ensures { result ≡ (is_told && not (has mask.now number)) }
{
    is_told && !has(mask, number)
}

/// Whether all the attributes were asked for by the bitmap. If not, it answers the least number that is there and was not
/// asked for.
pub fn asked(a: &Attrs, mask: &Bitmap) -> Result<(), u32>
    ensures { result ≡ refusal (least_unasked a.now mask.now) }
{
    let mask = mask.as_slice();
    if is_unasked(a.kind.is_some(), mask, 1) {
        return Err(1);
    }
    if is_unasked(a.change.is_some(), mask, 3) {
        return Err(3);
    }
    if is_unasked(a.size.is_some(), mask, 4) {
        return Err(4);
    }
    if is_unasked(a.lease.is_some(), mask, 10) {
        return Err(10);
    }
    if is_unasked(a.fileid.is_some(), mask, 20) {
        return Err(20);
    }
    if is_unasked(a.mode.is_some(), mask, 33) {
        return Err(33);
    }
    Ok(())
}
