//! The top call: a program is read, emitted as plain ECMAScript and run, and what is shown of that.
#![tactic(auto)]

mod execute;
mod fault;
mod laws;
mod lower;
mod mode;
mod read;
mod render;
mod shown_values;
mod taken;
mod top;

pub use laws::emitted_is_spelled;
pub use read::TextFault;
pub use shown_values::shown_text;
pub use top::{actx, lower_text};
