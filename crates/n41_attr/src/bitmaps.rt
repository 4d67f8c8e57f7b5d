ghost use Rattle.std.specs.Prelude.{◌≡◌, ◌<◌, ◌^◌, ◌&&◌, not, length, IfOk};
ghost use Rattle.n41_xdr.specs.Format.{many_at, word, fault_as};
ghost use Rattle.n41_attr.specs.declared.fault.BitmapFault.TheVariants.{Xdr};
ghost use Rattle.n41_attr.specs.Bitmaps.{bitmap, has, is_known, is_unknown, least_unknown};
ghost use Rattle.n41_attr.specs.Reading.{ReadsBitmap, GivesBitmap, Writes};

use crate::fault::BitmapFault;
use n41_types::{Bitmap, NoMemory, Sequence};
use n41_xdr::{Reader, Writer};
use std::alloc::Global;

/// So many words. Room is taken for a word only once it is there.
fn read_count(alloc: Global, r: &mut Reader, count: u32) -> Result<Vec<u32>, BitmapFault>
    ensures read { GivesBitmap (λ words. words.items) result r.new (fault_as Xdr (many_at word count r.old)) }
    ensures len { IfOk result (λ words. length words.items ≡ count) }
{
    let mut words = Vec::new(alloc);
    for _ in 0..count {
        let next = r.u32()?;
        words.push(next)?;
    }
    Ok(words)
}

/// The words of a bitmap.
#[tactic(auto, unfolding(crate::specs::Bitmaps::bitmap))]
pub(crate) fn read_words(alloc: Global, r: &mut Reader) -> Result<Vec<u32>, BitmapFault>
    ensures read { GivesBitmap (λ words. words.items) result r.new (fault_as Xdr (bitmap.read r.old)) }
    ensures len { IfOk result (λ words. length words.items < 2 ^ 32) }
{
    let count = r.u32()?;
    read_count(alloc, r, count)
}

/// Reads a bitmap (RFC 8881, bitmap4). A fault leaves the reader as it was.
pub fn read_bitmap(alloc: Global, r: &mut Reader) -> Result<Bitmap, BitmapFault>
    ensures { ReadsBitmap (λ mask. mask) result r.old r.new (fault_as Xdr (bitmap.read r.old)) }
{
    let start = r.rest();
    match read_words(alloc, r) {
        Ok(words) => match Sequence::from_vec(alloc, words) {
            Ok(mask) => Ok(mask),
            Err(_) => {
                *r = Reader::new(start);
                Err(BitmapFault::NoMemory)
            }
        },
        Err(fault) => {
            *r = Reader::new(start);
            Err(fault)
        }
    }
}

/// Writes a bitmap of fewer than 2^32 words (RFC 8881, bitmap4).
#[tactic(auto, unfolding(crate::specs::Bitmaps::bitmap))]
pub fn write_bitmap(w: &mut Writer, mask: &Bitmap) -> Result<(), NoMemory>
    requires { bitmap.Fits mask.now }
    ensures { Writes result w.old w.new (bitmap.spell mask.now) }
{
    let words = mask.as_slice();
    w.put_u32(words.len() as u32)?;
    for word in words {
        w.put_u32(*word)?;
    }
    Ok(())
}

/// Whether an attribute is in a bitmap.
pub(crate) fn has(mask: &[u32], number: u32) -> bool
    ensures { result ≡ has mask.now number }
{
    let word = mask.get((number / 32) as usize).copied().unwrap_or(0);
    (word >> (number % 32)) & 1 == 1
}

fn is_known(number: u64) -> bool
    ensures { result ≡ is_known number }
{
    matches!(number, 1 | 3 | 4 | 10 | 20 | 33)
}

fn is_unknown(mask: &[u32], number: u64) -> bool
    requires { number < 2 ^ 37 }
    ensures { result ≡ is_unknown mask.now number }
{
    let word = mask.get((number / 32) as usize).copied().unwrap_or(0);
    (word >> (number % 32) as u32) & 1 == 1 && !is_known(number)
}

/// The least attribute of a bitmap that is not known.
pub(crate) fn least_unknown(mask: &[u32]) -> Option<u64>
    requires { length mask.now < 2 ^ 32 }
    ensures { result ≡ least_unknown mask.now }
{
    for number in 0..32 * mask.len() as u64 {
        if is_unknown(mask, number) {
            return Some(number);
        }
    }
    None
}
