//! Laws over images, as contracts. No call of the product needs these functions.
ghost use Rattle.lms_image.specs.Laws.{FaultlessAreImages, ImagesAreFaultless, ImagesAreToldApart};

/// Bytes have no fault exactly where they are an image, of either version, of some key and its
/// numbers.
pub fn faultless_texts_are_images()
    ensures { FaultlessAreImages }
{}

/// What was written is read again: an image of either version has no fault.
pub fn images_have_no_fault()
    ensures { ImagesAreFaultless }
{}

/// An image is that of one key, one counter, one number of openings and one of burnt indices.
pub fn images_are_told_apart()
    ensures { ImagesAreToldApart }
{}
