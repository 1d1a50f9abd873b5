//! Laws of rescue texts. A function does nothing: its clauses are the laws.
ghost use Rattle.rescue_text.specs.Laws.{BlocksLieSideBySide, SectionsAreOfImages, SectionsRise};

/// The sections that a text says are of the images that there are, one for an image at most and in their order, and the
/// blocks of each lie side by side.
#[tactic(auto, using(crate::proofs::Rising::sections_rise, crate::proofs::Rising::of_images, crate::proofs::Sound::are_sections))]
pub fn sections_are_of_images_in_order()
    ensures order { SectionsRise }
    ensures images { SectionsAreOfImages }
    ensures blocks { BlocksLieSideBySide }
{}
