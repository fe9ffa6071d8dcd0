//! Laws of what images and stores stand for. What each says stands in `specs/Meaning.antt`.

ghost use Rattle.page_io.specs.Meaning.{ImagesHaveOneMeaning, CommitsStand};

/// An image stands for one map at most, and its bounds.
pub fn images_have_one_meaning()
    ensures { ImagesHaveOneMeaning }
{}

/// A commit of pages that spell a good placement leaves a file that stands for its map.
pub fn commits_stand()
    ensures { CommitsStand }
{}
