//! What may be wrong with a page, and who is told of it.

ghost use Rattle.std.specs.Prelude.{◌≡◌, ℕ, List, Option, None, [], ◌∷◌};
ghost use Rattle.dbm_salvage.specs.Telling.{Tells};
ghost use Rattle.dbm_salvage.specs.declared.trouble.Trouble.{Trouble};

/// What is wrong with a page.
#[derive(Clone, Copy, Debug, PartialEq, Eq)]
pub enum Trouble {
    /// The device failed to read it, or a page of one of its contents.
    Unread,
    /// It has zeros alone.
    Blank,
    /// Its bytes spell no page.
    NoPage,
    /// They spell a page of another number. So does a redo image, and what is left of one.
    Elsewhere,
    /// A content that lies in pages of its own isn't whole.
    Content,
}

/// Is told of pages in trouble.
pub trait Troubles {
    /// What it was told, in order: the page and what is wrong with it. None where that isn't known,
    /// as of one that shows it on a terminal.
    ghost told: { Self → Option (List (ℕ × Trouble)) };

    /// Something is wrong with this page.
    fn tell(&mut self, page: u32, trouble: Trouble)
        ensures { Tells (told self.old) (told self.new) ((page, trouble) ∷ []) };

    /// So many redo images read as no page of the file, so that the pages which they were to be are
    /// those from before the commit.
    fn tell_lost(&mut self, images: u32)
        ensures { told self.new ≡ told self.old };

    /// The log of the last commits can't be read, so that what stands in it alone is missing.
    fn tell_lost_log(&mut self)
        ensures { told self.new ≡ told self.old };
}

/// Shows nothing of what it is told.
#[derive(Clone, Copy, Debug, PartialEq, Eq)]
pub struct Unshown;

impl Troubles for Unshown {
    ghost told = { λ unshown. None };

    fn tell(&mut self, _page: u32, _trouble: Trouble) {}

    fn tell_lost(&mut self, _images: u32) {}

    fn tell_lost_log(&mut self) {}
}
