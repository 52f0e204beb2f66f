//! Laws of the format, for the proofs of the crates above.

ghost use Rattle.std.specs.Prelude.{◌≡◌, ◌<◌, ℕ, List, Ok, slice_index};
ghost use Rattle.image.specs.Content.{Content, IsImage, spelling};
ghost use Rattle.image.specs.Format.{image_of};

/// The spelling of an image is read as this image: so no two images have one spelling.
pub fn what_is_spelled_is_read()
    ensures { (i : Content) → IsImage i → image_of (spelling i) ≡ Ok i }
{}

/// Bytes that are read as an image are its spelling, and the image keeps the rules: so each image
/// has one spelling.
pub fn what_is_read_is_spelled()
    ensures { (bytes : List ℕ) (i : Content) → ((k : ℕ) → slice_index bytes k < 256) → image_of bytes ≡ Ok i → IsImage i × (bytes ≡ spelling i) }
{}
