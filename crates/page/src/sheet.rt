use crate::page::LONGEST_PAGE;
use texts::text::Text;

// A text with room for any page.
pub type Sheet = Text<LONGEST_PAGE>;
