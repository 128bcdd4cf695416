// A record filled from an image, or the refusal.
ghost use Rattle.std.specs.Prelude.{◌≡◌};
ghost use Rattle.rules.specs.Fill.{whole_sizes, filling, record_after};
ghost use Rattle.rules.specs.Word.{fill_of};

use crate::image::{IMAGE, Image, part};
use crate::record::{RECORD, put_fields};
use rules::{Extent, Refusal, Refused};

// Image and record have their sizes. They are asked before anything is made of the two: by `Image::new` an
// `Option` of the image would be kept beside the image, at a cost in time and stack.
#[tactic(auto, unfolding(rules::specs::Fill::whole_sizes))]
fn whole_sizes(image: &[u8], into: &[u8]) -> bool
    ensures { result ≡ whole_sizes image.now into.now }
{
    image.len() == IMAGE && into.len() == RECORD
}

// Where the ACS structure of the image stands; a list without one gives an empty part. A refusal
// leaves every byte of the record as it was.
pub fn fill(image: &[u8], into: &mut [u8]) -> Result<Extent, Refused>
    ensures result_value { fill_of result ≡ filling image.now into.old }
    ensures into_after { into.new ≡ record_after (filling image.now into.old) image.now into.old }
{
    if !whole_sizes(image, into) {
        return Err(Refusal::Length.into());
    }
    let image = Image { bytes: image };
    let record = into.as_mut_array().ok_or(Refusal::Length)?; // its length again, for the type
    let acs = image.find()?.unwrap_or_default();
    put_fields(record, image, part(image.bytes, acs));
    Ok(acs)
}
