//! Laws of images.

ghost use Rattle.batch_run.specs.Images.{ImagesHoldTheFile};

/// States that the image of a file holds in each of its pages what the file holds.
pub fn images_hold_the_file()
    ensures { ImagesHoldTheFile }
{}
