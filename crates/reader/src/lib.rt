// How a question's text becomes words in lent buffers: `read_question`. In specs/, `LentBuffers` says what it answers and what the buffers hold then.
#![tactic(auto)]

pub mod question;
