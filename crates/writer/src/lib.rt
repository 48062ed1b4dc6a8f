// Questions written as text: `write_question`; crate `list_writer` has the lists. A text is measured by writing it to a buffer that holds nothing; only a text
// that fits is written to the lent one. In specs/, `Written` says what both entries answer and what their buffers hold.
#![tactic(auto)]

pub mod question;
pub mod written;
