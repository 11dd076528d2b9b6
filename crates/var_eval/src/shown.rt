//! What is shown of variables.

use pm_text::Text;
use var_values::Mark;

/// What is shown of a variable, or of a part of it.
#[derive(Drop)]
pub enum Shown {
    NoVariable,
    /// It has no text, for this reason.
    Marked(Mark),
    Text(Text),
}
