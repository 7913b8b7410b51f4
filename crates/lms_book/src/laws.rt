//! Laws over reservations and over the lives of a store, as contracts. No call of the product needs
//! these functions.
ghost use Rattle.lms_book.specs.Books.{NoThirdTextIsLeft};
ghost use Rattle.lms_book.specs.Lives.{ImagesCountAllUses, LeasesNeverOverlap, OpeningsAreNumbered};

/// A crash during a reservation leaves what it could leave before, or the image that counts the
/// reserved indices.
pub fn no_third_text_is_left()
    ensures { NoThirdTextIsLeft }
{}

/// In every life of a store, of one opening or of many, a lease begins at or after the end of each
/// earlier lease of its key. So no two leases of a key overlap. The contract of `Book::close` says
/// that what a book did is one such opening.
pub fn leases_never_overlap()
    ensures { LeasesNeverOverlap }
{}

/// In an image that a life of a store leaves, the indices that the life gave and those that the
/// image counts as burnt are together at most those that it counts as used.
pub fn images_count_all_uses()
    ensures { ImagesCountAllUses }
{}

/// In every life of a store, the number that an opening writes into its images is above those of
/// all earlier openings that gave a lease.
pub fn openings_are_numbered()
    ensures { OpeningsAreNumbered }
{}
