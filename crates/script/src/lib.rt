// Scripts: from the bytes of a script to typed commands, one a line.
#![tactic(auto)]

mod command;
mod line;
mod opening;

pub use command::{Call, Command};
pub use line::{Line, read_script};
pub use opening::{Opening, StoreName, TranslatorName, ValuesName};
