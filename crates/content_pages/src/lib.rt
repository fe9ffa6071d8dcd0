//! The pages of a far content: reading them, taking and writing them, and giving them back.
#![tactic(auto)]

mod giving;
mod layout;
mod putting;
mod reading;

pub use giving::give_content;
pub use layout::{MOST_PAGES, PER_PAGE, pages_for};
pub use putting::put_content;
pub use reading::{check_part, read_content, read_page};
