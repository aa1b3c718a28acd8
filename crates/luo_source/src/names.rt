// Names as they stand in a text.
use luo_num::Text;

/// A name, and its token as `at`.
#[derive(Debug, Drop)]
pub struct Name {
    pub text: Text,
    pub at: usize,
}
